//! Replacing, and the elements that match a pattern.
use crate::row::{Row, rows, values};

static REPLACED: &[Row] = values![
    "{1, 2, 3} /. {x__, y__} -> {{x}, {y}}" => "{{1}, {2, 3}}",
    "x /. {}" => "x",
    "x /. x -> x" => "x",
    "f[a] /. b -> c" => "f[a]",
    "x /. y" => "x /. y",
    "x /. {x -> 1, y}" => "x /. {x -> 1, y}",
    "x /. {{x -> 1}}" => "x /. {{x -> 1}}",
    "x /. Rule[x]" => "x /. Rule[x]",
    "x /. Rule[x, 1, 2]" => "x /. Rule[x, 1, 2]",
    "ReplaceAll[x]" => "ReplaceAll[x]",
    "ReplaceAll[x, x -> 1, 2]" => "ReplaceAll[x, x -> 1, 2]",
    "x = 5; x /. 5 -> y" => "y",
    "r = x -> 2; x + 1 /. r" => "3",
    "{x, y} /. {x -> y, y -> x}" => "{y, x}",
    "f[x] /. {x -> b, f[x] -> a}" => "a",
    "{a, b} /. {_ -> 1, a -> 2}" => "1",
    "f[f[x]] /. f[y_] -> g[y]" => "g[f[x]]",
    "f[f[x]] /. f -> g" => "g[g[x]]",
    "h[x][x] /. x -> 1" => "h[1][1]",
    "f[x][y] /. f[x] -> g" => "g[y]",
    "{1, 2} /. List -> f" => "f[1, 2]",
    "{1, \"s\"} /. {1 -> 2, \"s\" -> t}" => "{2, t}",
    "f[1, a] /. _?IntegerQ -> 0" => "f[0, a]",
    "{1, 5, 9} /. x_?IntegerQ /; x > 4 -> y" => "{1, y, y}",
    "{1, 2, 3} /. n_ :> even /; EvenQ[n]" => "{1, even, 3}",
    "l = {}; {1, 2} /. x_ /; (AppendTo[l, x]; False) -> 0; l" => "{{1, 2}, List, 1, 2}",
    "n = 0; {{a, a} /. a -> n++, {a, a} /. a :> n++}" => "{{0, 0}, {1, 2}}",
    "f[1] /. f[x_, y___] -> {y}" => "{}",
    "f[1, 2, 3] /. f[x_, y__] -> {y}" => "{2, 3}",
    "{f[1, 1], f[1, 2]} /. f[x_, x_] -> y" => "{y, f[1, 2]}",
    "Hold[x + x] /. x -> 1" => "Hold[1 + 1]",
    "Hold[Function[x, x]] /. x -> y" => "Hold[Function[y, y]]",
    "f[1] /. f[x_] -> Function[x, x]" => "Function[x, x]",
    "a + b + c /. b -> 2" => "2 + a + c",
];

static REPEATED: &[Row] = values![
    "{a, b} //. {a -> b, b -> c}" => "{c, c}",
    "x //. {}" => "x",
    "x //. x -> x" => "x",
    "x //. y" => "x //. y",
    "x //. {x -> 1, y}" => "x //. {x -> 1, y}",
    "ReplaceRepeated[x]" => "ReplaceRepeated[x]",
    "a //. {a -> b, b -> a}" => "$Aborted",
    "f[0] //. f[n_] -> f[g[n]]" => "$Aborted",
    "Hold[f[0]] //. f[n_] :> n + 1" => "Hold[0 + 1]",
    "f[0] //. f[n_] /; n < 3 :> f[n + 1]" => "f[3]",
    "{1, 2, 3} //. {x_, y__} -> {y}" => "{3}",
    "{3, 1, 2} //. {x___, y_, z_, w___} /; y > z -> {x, z, y, w}" => "{1, 2, 3}",
    "f[1] //. f[n_] :> n + 1" => "2",
    "Hold[p[u, v]] /. {u -> Nest[s, 0, 126], v -> Fold[p[Nest[s, 0, 127], #] &, end, Range[31]]} //. {p[s[x_], y_] -> p[x, y], p[0, y_] -> y}" =>
        "Hold[end]",
    "Hold[p[u, v]] /. {u -> Nest[s, 0, 127], v -> Fold[p[Nest[s, 0, 127], #] &, end, Range[31]]} //. {p[s[x_], y_] -> p[x, y], p[0, y_] -> y}" =>
        "$Aborted",
];

static CASES: &[Row] = values![
    "Cases[f[1, a, 2], _?IntegerQ]" => "f[1, 2]",
    "Cases[h[f[1], 2], f[x_] :> x + 1]" => "h[2]",
    "Cases[{}, _]" => "{}",
    "Cases[5, _]" => "Cases[5, _]",
    "Cases[x, x]" => "Cases[x, x]",
    "Cases[{1, a}, _?IntegerQ, 2]" => "Cases[{1, a}, _?IntegerQ, 2]",
    "Cases[{f[x], x, {x}}, x]" => "{x}",
    "Cases[{a, List}, List]" => "{List}",
    "Cases[{Rule[a], b}, Rule[a]]" => "{Rule[a]}",
    "Cases[{a -> 1, b -> 2}, HoldPattern[a -> _]]" => "{a -> 1}",
    "Cases[{a, b}, {a -> 1, b -> 2}]" => "{}",
    "Cases[{1, 5, 9}, x_ :> x + 1 /; x > 4]" => "{6, 10}",
    "Cases[{f[1, 2], f[]}, f[x___] -> x]" => "{1, 2}",
    "Cases[{{1, 2}, {3}}, {x_, y_} -> x + y]" => "{3}",
    "l = {}; Cases[{1, {2}}, x_ /; (AppendTo[l, x]; False)]; l" => "{1, {2}}",
];

static BY_ATTRIBUTES: &[Row] = rows![
    "--kernels 0":
    "replacing under Flat and under Orderless": [
        "SetAttributes[g, Flat]",
        "g[1, 2, 3] /. g[x_, y_] -> {x, y}",
        "SetAttributes[o, Orderless]",
        "o[b, a] /. o[x_, y_] -> {x, y}"
    ] => [
        "Out[2]= {1, g[2, 3]}",
        "Out[4]= {a, b}"
    ],
    "the name of a construct with other numbers of elements is Flat and Orderless as other heads are": [
        "Unprotect[HoldPattern]; SetAttributes[HoldPattern, Flat];",
        "MatchQ[HoldPattern[1, 2, 3], HoldPattern[x_, y_]]",
        "HoldPattern[1, 2, 3] /. HoldPattern[x_, y_] -> {x, y}",
        "Unprotect[Verbatim]; SetAttributes[Verbatim, Orderless];",
        "MatchQ[Verbatim[a, b], Verbatim[b, _]]"
    ] => [
        "Out[2]= True",
        "Out[3]= {1, HoldPattern[2, 3]}",
        "Out[5]= True"
    ],
    "elements that match under Orderless": ["SetAttributes[o, Orderless]", "Cases[{o[b, a], o[b]}, o[a, _]]"] =>
        ["Out[2]= {o[a, b]}"],
    "a round begins with the value of what the one before it made": ["b := c", "a //. {a :> b, c -> d}"] =>
        ["Out[2]= d"],
    "the first rule is tried first, however specific the second": ["{f[0], f[1]} /. {f[x_] -> a, f[0] -> b}"] =>
        ["Out[1]= {a, a}"],
];

static NINE_STEPS: &[Row] = rows![
    "--kernels 0 --steps 9":
    "guards at all places are steps": ["{1, 2} /. x_?IntegerQ -> 0"] => ["Out[1]= {0, 0}"],
];

static EIGHT_STEPS: &[Row] = rows![
    "--kernels 0 --steps 8":
    "guards at all places stop": ["{1, 2} /. x_?IntegerQ -> 0"] => ["Out[1]= $Aborted"],
];

static THREE_STEPS: &[Row] = rows![
    "--kernels 0 --steps 3":
    "rounds are steps, also the one that changes nothing": ["a //. a -> b"] => ["Out[1]= b"],
];

static TWO_STEPS: &[Row] = rows![
    "--kernels 0 --steps 2":
    "rounds stop": ["a //. a -> b"] => ["Out[1]= $Aborted"],
];

/// Single cells, and scripts.
pub(crate) fn tables() -> [&'static [Row]; 8] {
    [
        REPLACED,
        REPEATED,
        CASES,
        BY_ATTRIBUTES,
        NINE_STEPS,
        EIGHT_STEPS,
        THREE_STEPS,
        TWO_STEPS,
    ]
}
