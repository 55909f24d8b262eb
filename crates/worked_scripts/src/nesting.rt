//! Cells at the limits of depth and of size.
use crate::run::written;
use std::alloc::Global;
use std::test::Fail;

/// What stands round a core, so many times, and what stands round that.
struct Nest {
    front: &'static str,
    opening: &'static str,
    core: &'static str,
    closing: &'static str,
    back: &'static str,
}

const HELD: Nest = Nest {
    front: "Hold[",
    opening: "{",
    core: "1",
    closing: "}",
    back: "]",
};

const THROWN: Nest = Nest {
    front: "Throw[Hold[",
    opening: "{",
    core: "1",
    closing: "}",
    back: "]]",
};

const CALLS: Nest = Nest {
    front: "",
    opening: "f[",
    core: "x",
    closing: "]",
    back: "",
};

/// Puts a cell behind a text.
fn push_cell(text: &mut String, nest: &Nest, levels: usize) -> Result<(), Fail> {
    text.push_str(nest.front)?;
    for _ in 0..levels {
        text.push_str(nest.opening)?;
    }
    text.push_str(nest.core)?;
    for _ in 0..levels {
        text.push_str(nest.closing)?;
    }
    text.push_str(nest.back)?;
    Ok(())
}

/// What is written for a cell.
fn line_of(alloc: Global, nest: &Nest, levels: usize) -> Result<String, Fail> {
    let mut script = String::new(alloc);
    push_cell(&mut script, nest, levels)?;
    written(alloc, "--kernels 0", script.as_str())
}

/// Whether the value of a cell is what was read.
fn is_given_back(alloc: Global, nest: &Nest, levels: usize) -> Result<bool, Fail> {
    let mut line = String::from_str(alloc, "Out[1]= ")?;
    push_cell(&mut line, nest, levels)?;
    line.push_str("\n")?;
    Ok(line_of(alloc, nest, levels)?.as_str() == line.as_str())
}

#[test]
fn a_reading_has_a_greatest_depth(rt: HostRuntime) -> Result<(), Fail> {
    assert!(rt; is_given_back(rt.alloc(), &HELD, 510)?);
    assert_eq!(rt;
        line_of(rt.alloc(), &HELD, 511)?.as_str(),
        "Out[1]= $Aborted\n"
    );
    Ok(())
}

#[test]
fn what_is_thrown_is_shown_to_a_greatest_depth(rt: HostRuntime) -> Result<(), Fail> {
    let mut line = String::from_str(rt.alloc(), "Out[1]= Hold[")?;
    push_cell(&mut line, &THROWN, 508)?;
    line.push_str("]\n")?;
    assert_eq!(rt; line_of(rt.alloc(), &THROWN, 508)?.as_str(), line.as_str());
    assert_eq!(rt;
        line_of(rt.alloc(), &THROWN, 509)?.as_str(),
        "Out[1]= $Aborted\n"
    );
    Ok(())
}

#[test]
fn evaluations_nest_to_a_greatest_depth(rt: HostRuntime) -> Result<(), Fail> {
    assert!(rt; is_given_back(rt.alloc(), &CALLS, 255)?);
    assert_eq!(rt;
        line_of(rt.alloc(), &CALLS, 256)?.as_str(),
        "Out[1]= $Aborted\n"
    );
    Ok(())
}

#[test]
fn an_expression_has_a_greatest_size(rt: HostRuntime) -> Result<(), Fail> {
    let lines = written(
        rt.alloc(),
        "--kernels 0",
        "Length[Range[3999998]]\n\nLength[Range[3999999]]",
    )?;
    assert_eq!(rt; lines.as_str(), "Out[1]= 3999998\nOut[2]= $Aborted\n");
    Ok(())
}
