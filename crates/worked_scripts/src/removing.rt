//! Values and rules that are taken away.
use crate::row::{Row, rows, values};

static VALUES: &[Row] = values![
    "3 =." => "$Failed",
    "True =." => "$Failed",
    "f[x][y] =." => "$Failed",
    "Unset[]" => "Unset[]",
    "Unset[x, y]" => "Unset[x, y]",
    "HoldComplete[x =.]" => "HoldComplete[Unset[x]]",
];

static SCRIPTS: &[Row] = rows![
    "--kernels 0":
    "a value is taken away once": ["x = 1", "x =.", "x", "x =."] => ["Out[1]= 1", "Out[3]= x", "Out[4]= $Failed"],
    "a rule is taken away by its left side": ["f[x_] := 1", "f[0] = 2", "f[x_] =.", "{f[0], f[1]}"] =>
        ["Out[2]= 2", "Out[4]= {2, f[1]}"],
    "whatever its condition on the right": ["f[x_] := 1 /; x > 5", "f[x_] := 2 /; x < 5", "f[x_] =.", "{f[1], f[9]}"] =>
        ["Out[4]= {f[1], f[9]}"],
    "a condition on the left belongs to the left side": [
        "f[x_] := 1",
        "f[x_] /; x > 5 := 2",
        "f[x_] =.",
        "{f[1], f[9]}",
        "f[x_] /; x > 5 =.",
        "f[9]"
    ] => [
        "Out[4]= {f[1], 2}",
        "Out[6]= f[9]"
    ],
    "another name is another left side": ["f[x_] := 1", "f[y_] =.", "f[0]"] => ["Out[2]= $Failed", "Out[3]= 1"],
    "the elements of the left side are evaluated": ["n = 1", "f[1] = 2", "f[n] =.", "f[1]"] =>
        ["Out[1]= 1", "Out[2]= 2", "Out[4]= f[1]"],
    "a List is no left side": ["x = 1; {x} =.", "x"] => ["Out[1]= $Failed", "Out[2]= 1"],
    "a symbol with rules alone has no value": ["f[1] = 2", "f =.", "f[1]"] =>
        ["Out[1]= 2", "Out[2]= $Failed", "Out[3]= 2"],
    "an up rule": ["area[sq] ^= 4", "area[sq] =.", "area[sq]"] => ["Out[1]= 4", "Out[3]= area[sq]"],
    "up rules of all symbols": ["a + b ^= c", "a + b", "a + b =.", "a + b"] =>
        ["Out[1]= c", "Out[2]= c", "Out[4]= a + b"],
    "a down rule and an up rule": ["f[a] = 1", "f[a] ^= 2", "f[a] =.", "f[a]"] =>
        ["Out[1]= 1", "Out[2]= 2", "Out[4]= f[a]"],
    "the value of a Protected symbol stays": ["x = 1", "Protect[x]", "x =.", "x", "Unprotect[x]", "x =.", "x"] =>
        ["Out[1]= 1", "Out[3]= $Failed", "Out[4]= 1", "Out[7]= x"],
    "where one of two symbols is Protected both keep their rules": [
        "f[a] = 1",
        "f[a] ^= 2",
        "Protect[a]",
        "f[a] =.",
        "f[a]",
        "Unprotect[a]",
        "Clear[a]",
        "f[a]"
    ] => [
        "Out[1]= 1",
        "Out[2]= 2",
        "Out[4]= $Failed",
        "Out[5]= 2",
        "Out[8]= 1"
    ],
    "a Protected symbol without such a rule does not matter": ["f[a] = 1", "Protect[a]", "f[a] =.", "f[a]"] =>
        ["Out[1]= 1", "Out[4]= f[a]"],
];

/// Single cells, and scripts.
pub(crate) fn tables() -> [&'static [Row]; 2] {
    [VALUES, SCRIPTS]
}
