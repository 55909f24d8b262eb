// Many passes of one desk.
ghost use Rattle.std.specs.Prelude.{◌≡◌, ◌+◌, ◌^◌, ◌<◌, length, IfOk};
ghost use Rattle.desk_uses.specs.Many.{after_splits, new_passes, AllOfDesk, JoinsAll, Numbered, HasExactlyAll};
ghost use Rattle.turn_desk.specs.Lists.{HasExactly};
ghost use Rattle.turn_desk.specs.Passes.{by_number, NoneBeyond};

use std::alloc::{AllocError, Global};
use turn_desk::{Desk, Kept, Pass};

/// Makes `count` more passes. Want of memory is the only error.
pub fn split_many<B: Kept>(
    alloc: Global,
    desk: &Desk<B>,
    mut pass: Pass<B::Entry>,
    count: u32,
) -> Result<(Pass<B::Entry>, Vec<Pass<B::Entry>>), AllocError>
    requires desk { pass.desk ≡ desk.now }
    requires root { pass.number ≡ 0 }
    requires bound { pass.made + count < 2 ^ 32 }
    ensures kept { IfOk result (λ r. r.0 ≡ after_splits pass count) }
    ensures new { IfOk result (λ r. r.1.items ≡ new_passes pass count) }
{
    let mut passes = Vec::new(alloc);
    for n in 0..count {
        let (kept, new) = desk.split(pass);
        pass = kept;
        passes.push(new)?;
    }
    Ok((pass, passes))
}

/// Joins all of them into the first.
pub fn join_all<B: Kept>(
    desk: &Desk<B>,
    mut pass: Pass<B::Entry>,
    passes: Vec<Pass<B::Entry>>,
) -> Pass<B::Entry>
    requires desk { pass.desk ≡ desk.now }
    requires all { AllOfDesk desk.now passes.items }
    ensures { JoinsAll pass passes.items result }
{
    for other in passes {
        pass = desk.join(pass, other);
    }
    pass
}

/// Joins all passes and gives the book back. It has the entries of each pass, and no others.
pub fn close_all<B: Kept>(desk: Desk<B>, pass: Pass<B::Entry>, passes: Vec<Pass<B::Entry>>) -> B
    requires desk { pass.desk ≡ desk }
    requires all { AllOfDesk desk passes.items }
    requires root { pass.number ≡ 0 }
    requires numbered { Numbered 1 passes.items }
    requires made { pass.made ≡ 1 + length passes.items }
    ensures root { HasExactly (B.entries result) (by_number pass) }
    ensures each { HasExactlyAll (B.entries result) passes.items }
    ensures others { NoneBeyond pass.made (B.entries result) }
{
    let pass = join_all(&desk, pass, passes);
    desk.close(pass)
}
