//! Worked scripts.
use crate::row::{Row, rows};

static READ: &[Row] = rows![
    "--kernels 0":
    "an empty input prints nothing": [] => [],
    "a sum": ["1 + 2"] => ["Out[1]= 3"],
    "full forms are read": ["Set[x, 3]", "Plus[x, 4]"] => ["Out[1]= 3", "Out[2]= 7"],
    "a cell without a reading": ["1 +", "2"] => ["Syntax[1]: 3", "Out[2]= 2"],
    "a comment alone prints nothing": ["(* only a comment *)", "\"open"] => ["Syntax[2]: 0"],
    "what is held stays as it is read": ["HoldComplete[-x^2 - 3 y /; a == b]"] =>
        ["Out[1]= HoldComplete[-x^2 - 3*y /; a == b]"],
    "a function before Map is one function": ["HoldComplete[# + 1 & /@ a]"] =>
        ["Out[1]= HoldComplete[Map[#1 + 1 &, a]]"],
    "the greatest integer": [
        "170141183460469231731687303715884105727",
        "170141183460469231731687303715884105728",
        "170141183460469231731687303715884105727 + 1"
    ] => [
        "Out[1]= 170141183460469231731687303715884105727",
        "Syntax[2]: 0",
        "Out[3]= $Aborted"
    ],
    "printing": [
        "a - 2 b",
        "2^-1",
        "x + y + 2 x",
        "f = # + 1 &",
        "# + 1 & /@ {1, 2}",
        "Length[Unevaluated[1 + 2]]",
        "q[Unevaluated[1 + 2]]"
    ] => [
        "Out[1]= a - 2*b",
        "Out[2]= 2^(-1)",
        "Out[3]= y + 3*x",
        "Out[4]= #1 + 1 &",
        "Out[5]= {2, 3}",
        "Out[6]= 2",
        "Out[7]= q[Unevaluated[1 + 2]]"
    ],
];

static EVALUATED: &[Row] = rows![
    "--kernels 0":
    "a recursive function": ["fac[n_] := n fac[n - 1]", "fac[0] = 1", "fac[10]"] =>
        ["Out[2]= 1", "Out[3]= 3628800"],
    "a product out of range": ["fac[n_] := n fac[n - 1]", "fac[0] = 1", "fac[33]", "fac[34]"] =>
        ["Out[2]= 1", "Out[3]= 8683317618811886495518194401280000000", "Out[4]= $Aborted"],
    "attributes": [
        "SetAttributes[g, {Flat, Orderless}]",
        "g[c, g[b, a]]",
        "{1, 2} + 1",
        "{1, 2, 3} + {1, 2}"
    ] => [
        "Out[2]= g[a, b, c]",
        "Out[3]= {2, 3}",
        "Out[4]= {1, 2} + {1, 2, 3}"
    ],
    "evaluations without an end stop": ["h[x_] := h[x + 1]", "h[0]", "r[x_] := 1 + r[x]", "r[0]"] =>
        ["Out[2]= $Aborted", "Out[4]= $Aborted"],
    "a sum is judged as a whole": ["-170141183460469231731687303715884105727 - 1 - 1 + 2"] =>
        ["Out[1]= -170141183460469231731687303715884105727"],
    "like terms and like bases": ["x + 2 x - 3 x", "x x^-1"] => ["Out[1]= 0", "Out[2]= 1"],
    "a function that keeps its values": [
        "fib[0] = 0; fib[1] = 1;",
        "fib[n_] := fib[n] = fib[n - 1] + fib[n - 2]",
        "fib[30]",
        "data = Table[Mod[i i, 7], {i, 10}]",
        "Total[data]"
    ] => [
        "Out[3]= 832040",
        "Out[4]= {1, 4, 2, 2, 4, 1, 0, 1, 4, 2}",
        "Out[5]= 21"
    ],
    "a function of two cases": [
        "col[1] = 0;",
        "col[m_] := 1 + col[If[EvenQ[m], Quotient[m, 2], 3 m + 1]]",
        "r = Map[col, {9, 16, 3, 10, 17, 4, 11, 18, 5, 12}];",
        "{r, Length[r], Max[r], Apply[Plus, r]}"
    ] => [
        "Out[4]= {{19, 4, 7, 6, 12, 2, 14, 20, 5, 9}, 10, 20, 98}"
    ],
];

static MATCHED: &[Row] = rows![
    "--kernels 0":
    "equal names match identical expressions": ["MatchQ[f[1, 2], f[x_, x_]]", "MatchQ[f[1, 1], f[x_, x_]]"] =>
        ["Out[1]= False", "Out[2]= True"],
    "an earlier sequence takes the shortest run first": [
        "l = {};",
        "MatchQ[{1, 2, 3}, {x__, y__} /; (AppendTo[l, {{x}, {y}}]; False)]",
        "l"
    ] => [
        "Out[2]= False",
        "Out[3]= {{{1}, {2, 3}}, {{1, 2}, {3}}}"
    ],
    "under Flat a blank takes a run in the head": [
        "SetAttributes[g, Flat]",
        "l = {};",
        "MatchQ[g[1, 2, 3], g[x_, y_] /; (AppendTo[l, {x, y}]; False)]",
        "l"
    ] => [
        "Out[3]= False",
        "Out[4]= {{1, g[2, 3]}, {g[1, 2], 3}}"
    ],
    "under Orderless a blank takes any element": [
        "SetAttributes[o, Orderless]",
        "l = {};",
        "MatchQ[o[a, b], o[x_, y_] /; (AppendTo[l, {x, y}]; False)]",
        "l"
    ] => [
        "Out[3]= False",
        "Out[4]= {{a, b}, {b, a}}"
    ],
    "alternatives go from left to right": [
        "l = {};",
        "MatchQ[f[1], (f[y_] | y_) /; (AppendTo[l, y]; False)]",
        "l"
    ] => [
        "Out[2]= False",
        "Out[3]= {1, f[1]}"
    ],
];

static DEFINED: &[Row] = rows![
    "--kernels 0":
    "a condition on the right": ["f[x_] := 1 /; x > 5", "f[3]", "f[9]"] => ["Out[2]= f[3]", "Out[3]= 1"],
    "the more specific rule is tried first": ["a[x_] := 1", "a[0] = 2", "a[0]", "a[5]"] =>
        ["Out[2]= 2", "Out[3]= 2", "Out[4]= 1"],
    "a guard asks for True": ["p[1] = True", "f[x_] := 1 /; p[x]", "f[1]", "f[2]"] =>
        ["Out[1]= True", "Out[3]= 1", "Out[4]= f[2]"],
    "refused assignments, and an up rule": ["True = 3", "area[sq] ^= 4", "area[sq]", "f[x][y] = 1"] =>
        ["Out[1]= $Failed", "Out[2]= 4", "Out[3]= 4", "Out[4]= $Failed"],
];

static SCOPED: &[Row] = rows![
    "--kernels 0":
    "an iterator is local": ["i = 7", "Table[i, {i, 3}]", "i"] => ["Out[1]= 7", "Out[2]= {1, 2, 3}", "Out[3]= 7"],
    "nothing is put into a function that binds the name": ["With[{x = 2}, Function[x, x]]"] =>
        ["Out[1]= Function[x, x]"],
    "each use of a Module has names of its own": [
        "g[x_] := Module[{t = x + 1}, t t]",
        "Map[g, {1, 2, 3}]",
        "Module[{x}, Hold[x]]"
    ] => [
        "Out[2]= {4, 9, 16}",
        "Out[3]= Hold[x$4]"
    ],
    "Module, Block and With": [
        "Module[{x = 2}, x + y]",
        "Module[{x}, x]",
        "Block[{y = 5}, y]",
        "With[{y = 3}, Hold[y]]"
    ] => [
        "Out[1]= 2 + y",
        "Out[2]= x$2",
        "Out[3]= 5",
        "Out[4]= Hold[3]"
    ],
];

static ONE_STEP: &[Row] = rows![
    "--kernels 0 --steps 1":
    "an inner sum is a step": ["1 + 2", "1 + (2 + 3)"] => ["Out[1]= 3", "Out[2]= $Aborted"],
];

static HUNDRED_STEPS: &[Row] = rows![
    "--kernels 0 --steps 100":
    "turns and one pass are steps": ["Do[1, {99}]", "Do[1, {100}]"] => ["Out[2]= $Aborted"],
];

static ELEVEN_STEPS: &[Row] = rows![
    "--kernels 0 --steps 11":
    "turns of an inner loop": ["Do[1, {2}, {3}]"] => [],
];

static TEN_STEPS: &[Row] = rows![
    "--kernels 0 --steps 10":
    "turns of an inner loop stop": ["Do[1, {2}, {3}]"] => ["Out[1]= $Aborted"],
];

/// The tables, in the order in which the parts of the language build on one another.
pub(crate) fn tables() -> [&'static [Row]; 9] {
    [
        READ,
        EVALUATED,
        MATCHED,
        DEFINED,
        SCOPED,
        ONE_STEP,
        HUNDRED_STEPS,
        ELEVEN_STEPS,
        TEN_STEPS,
    ]
}
