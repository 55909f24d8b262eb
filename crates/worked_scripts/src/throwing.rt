//! What is thrown, and what catches it.
use crate::row::{Row, rows, values};

static VALUES: &[Row] = values![
    "Throw[1]" => "Hold[Throw[1]]",
    "Throw[1 + 1]" => "Hold[Throw[2]]",
    "Hold[Throw[1]]" => "Hold[Throw[1]]",
    "Catch[3]" => "3",
    "Catch[Throw[1]; 2]" => "1",
    "Catch[f[a, Throw[b], Throw[c]]]" => "b",
    "{Catch[Throw[1]], 2}" => "{1, 2}",
    "Catch[{Catch[Throw[1]], Throw[2]}]" => "2",
    "Catch[Throw[Catch[Throw[1]] + 2]]" => "3",
    "Catch[Throw[1], 1 + 1]" => "Catch[Throw[1], 2]",
    "Catch[Throw[1, t]]" => "Throw[1, t]",
    "{Catch[], Throw[]}" => "{Catch[], Throw[]}",
    "Catch[Table[If[i == 2, Throw[done], i], {i, 5}]]" => "done",
    "Catch[Map[If[# > 1, Throw[#], #] &, {1, 2, 3}]]" => "2",
    "Catch[2^200]" => "$Aborted",
    "Throw = 3" => "$Failed",
    "Catch[x_] := 3" => "$Failed",
    "Attributes[Throw]" => "{Protected}",
    "Attributes[Catch]" => "{HoldFirst, Protected}",
    "Throw[Nest[Hold, 1, 510]]" => "$Aborted",
    "Length[Catch[Throw[Nest[Hold, 1, 510]]]]" => "1",
];

static SCRIPTS: &[Row] = rows![
    "--kernels 0":
    "a loop ends by a throw": ["Catch[Do[If[i > 3, Throw[i]], {i, 10}]]", "Throw[5]"] =>
        ["Out[1]= 4", "Out[2]= Hold[Throw[5]]"],
    "Block puts back where a throw is caught": ["y = 1", "Catch[Block[{y = 2}, Throw[y]]]", "y"] =>
        ["Out[1]= 1", "Out[2]= 2", "Out[3]= 1"],
    "and where nothing catches it": ["y = 1", "Block[{y = 2}, Throw[y]]", "y"] =>
        ["Out[1]= 1", "Out[2]= Hold[Throw[2]]", "Out[3]= 1"],
    "turns after a throw are left out": ["n = 0;", "Do[n = i; If[i == 3, Throw[n]], {i, 10}]", "n"] =>
        ["Out[2]= Hold[Throw[3]]", "Out[3]= 3"],
    "definitions before a throw stay": ["n = 1; Throw[2]; n = 3", "n"] => ["Out[1]= Hold[Throw[2]]", "Out[2]= 1"],
    "a later cell does not catch": ["Throw[1]", "Catch[2]", "1 + 2"] =>
        ["Out[1]= Hold[Throw[1]]", "Out[2]= 2", "Out[3]= 3"],
    "the name of a local leaves by a throw": ["Catch[Module[{x}, Throw[x]]]", "Module[{x}, x]"] =>
        ["Out[1]= x$1", "Out[2]= x$2"],
    "a throw in a guard": ["f[x_] := x /; Throw[g]", "Catch[f[1]]", "f[1]"] =>
        ["Out[2]= g", "Out[3]= Hold[Throw[g]]"],
    "a function that throws": ["f[x_] := If[x > 2, Throw[x], x]", "Catch[f[1] + f[2]]", "Catch[f[1] + f[5]]"] =>
        ["Out[2]= 3", "Out[3]= 5"],
    "what is shown of a throw is no throw": ["Throw[1]", "Length[Hold[Throw[1]]]", "Catch[ReleaseHold[Hold[Throw[1]]]]"] =>
        ["Out[1]= Hold[Throw[1]]", "Out[2]= 1", "Out[3]= 1"],
];

static ONE_STEP: &[Row] = rows![
    "--kernels 0 --steps 1":
    "a throw is a step": ["Throw[1]", "Catch[3]", "Catch[Throw[1]]"] =>
        ["Out[1]= Hold[Throw[1]]", "Out[2]= 3", "Out[3]= $Aborted"],
];

static TWO_STEPS: &[Row] = rows![
    "--kernels 0 --steps 2":
    "and what catches it another": ["Catch[Throw[1]]"] => ["Out[1]= 1"],
];

/// Single cells, and scripts.
pub(crate) fn tables() -> [&'static [Row]; 4] {
    [VALUES, SCRIPTS, ONE_STEP, TWO_STEPS]
}
