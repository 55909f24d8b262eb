ghost use Rattle.std.specs.Prelude.{◌≡◌, ◌≤◌, ◌<◌, true, length, Some};
ghost use Rattle.journal.specs.Cuts as cuts;
ghost use Rattle.laws_journal.specs.Laws.{is_usable};
ghost use Rattle.par_plan.specs.Plan.{method_of, places_of, chunk_at, IsWithin};

use crate::method::Method;

/// A chunk of a list: its elements from one place up to, and without, the other. Places count from 0.
#[derive(Clone, Copy, Debug)]
pub struct Chunk {
    pub from: u64,
    pub to: u64,
}

/// How many chunks the coarsest cut makes.
fn coarsest_count(elements: u64, kernels: u32) -> u64
    ensures count { result ≡ cuts.chunks elements kernels }
    ensures few { result ≤ elements }
{
    u64::from(kernels).max(1).min(elements)
}

/// How many chunks of so many elements there are, the last of which may be shorter.
fn count_per(elements: u64, size: u64) -> u64
    requires { 1 ≤ size }
    ensures { result ≡ length (cuts.lengths_per elements size) }
{
    let whole = elements / size;
    if elements % size == 0 {
        whole
    } else {
        whole + 1
    }
}

/// How many chunks the elements of a list of this length make, with so many living kernels.
pub fn cut_count(elements: u64, method: Method, kernels: u32) -> u64
    requires { is_usable (method_of method) ≡ true }
    ensures { result ≡ length (cuts.lengths (method_of method) elements kernels) }
{
    match method {
        Method::Coarsest => coarsest_count(elements, kernels),
        Method::Finest => elements,
        Method::Per(size) => count_per(elements, size),
    }
}

/// A chunk of an even cut: those in front are one longer where the elements do not come out even.
fn even_chunk(elements: u64, count: u64, index: u64) -> Chunk
    requires within { index < count }
    requires some_each { count ≤ elements }
    ensures places { chunk_at (cuts.even_lengths elements count) index ≡ Some (places_of result) }
    ensures bounds { IsWithin elements result }
{
    let size = elements / count;
    let longer = elements % count;
    if index < longer {
        let from = index * (size + 1);
        Chunk {
            from,
            to: from + (size + 1),
        }
    } else {
        let from = index * size + longer;
        Chunk {
            from,
            to: from + size,
        }
    }
}

/// A chunk of so many elements, or of what is left.
fn chunk_of_size(elements: u64, size: u64, index: u64) -> Chunk
    requires size { 1 ≤ size }
    requires within { index < length (cuts.lengths_per elements size) }
    ensures places { chunk_at (cuts.lengths_per elements size) index ≡ Some (places_of result) }
    ensures bounds { IsWithin elements result }
{
    let from = index * size;
    let to = if elements - from < size {
        elements
    } else {
        from + size
    };
    Chunk { from, to }
}

/// The chunk with this number, from 0, of a list of this length with so many living kernels.
pub fn cut(elements: u64, method: Method, kernels: u32, index: u64) -> Chunk
    requires usable { is_usable (method_of method) ≡ true }
    requires within { index < length (cuts.lengths (method_of method) elements kernels) }
    ensures places { chunk_at (cuts.lengths (method_of method) elements kernels) index ≡ Some (places_of result) }
    ensures bounds { IsWithin elements result }
{
    match method {
        Method::Coarsest => even_chunk(elements, coarsest_count(elements, kernels), index),
        Method::Finest => Chunk {
            from: index,
            to: index + 1,
        },
        Method::Per(size) => chunk_of_size(elements, size, index),
    }
}
