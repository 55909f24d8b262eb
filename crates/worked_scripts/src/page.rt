//! The examples of the language's reference, in the order of the page.
use crate::row::{Row, rows, values};

static SAMPLE_SCRIPT: &[Row] = rows![
    "--kernels 0":
    "sums and names": ["x = 3", "x + 4 + (x - 1)", "HoldComplete[# + 1 & /@ a]", "\"open"] => [
        "Out[1]= 3",
        "Out[2]= 9",
        "Out[3]= HoldComplete[Map[#1 + 1 &, a]]",
        "Syntax[4]: 0"
    ],
];

static TEXT: &[Row] = values![
    "Sort[{f[a], b, B, \"s\", 2, -1}]" => "{-1, 2, \"s\", b, B, f[a]}",
    "Plus[a, Times[-1, b]]" => "a - b",
    "{1, 2} + 1" => "{2, 3}",
    "f[1 + 1, x]" => "f[2, x]",
    "MatchQ[{1, 2}, {_, ___}]" => "True",
    "MatchQ[f[1], _f]" => "True",
    "{a, a, b} /. {x_, x_, y_} -> {x, y}" => "{a, b}",
    "Cases[{1, a, 2}, _?IntegerQ]" => "{1, 2}",
    "Cases[{1, 5, 9}, x_ /; x > 4]" => "{5, 9}",
    "Cases[{a, b, c}, a | c]" => "{a, c}",
    "Hold[1 + 1] /. HoldPattern[1 + 1] -> x" => "Hold[x]",
    "MatchQ[x_, Verbatim[x_]]" => "True",
    "{1, 2, 3} /. {x__, y__} -> {{x}, {y}}" => "{{1}, {2, 3}}",
];

static DEFINITIONS: &[Row] = values![
    "True = 3" => "$Failed",
    "3 = x" => "$Failed",
    "f[x][y] = 1" => "$Failed",
    "t /: f[x] = 1" => "$Failed",
    "Module[{x = 2}, x + y]" => "2 + y",
    "Block[{y = 5}, y]" => "5",
    "With[{y = 3}, Hold[y]]" => "Hold[3]",
    "Function[{x, y}, {y, x}][1, 2]" => "{2, 1}",
    "(f[#2, ##] &)[a, b]" => "f[b, a, b]",
    "With[{x = 2}, Function[x, x]]" => "Function[x, x]",
    "With[{x = 3}, Hold[Module[{x, 5}, x]]]" => "Hold[Module[{3, 5}, 3]]",
    "(Hold[Slot[#]] &)[7]" => "Hold[#7]",
];

static NUMBERS: &[Row] = values![
    "x + 2 + 2 x" => "2 + 3*x",
    "2 x x^3" => "2*x^4",
    "2^10" => "1024",
    "(x^2)^3" => "x^6",
    "Minus[x]" => "-x",
    "Subtract[5, 3]" => "2",
    "Divide[a, b]" => "a*b^(-1)",
    "Quotient[-7, 3]" => "-3",
    "Mod[-7, 3]" => "2",
    "Abs[{-3, 4}]" => "{3, 4}",
    "Sign[-3]" => "-1",
    "GCD[12, 18]" => "6",
    "Factorial[5]" => "120",
    "Max[3, {7, 2}]" => "7",
    "Min[3, {7, 2}]" => "2",
    "EvenQ[x]" => "False",
    "OddQ[-3]" => "True",
];

static LOGIC: &[Row] = values![
    "1 == 2" => "False",
    "1 != 2 != 3" => "True",
    "1 < 2 < 2" => "False",
    "1 <= 2 <= 2" => "True",
    "3 > 2 > 1" => "True",
    "3 >= 4" => "False",
    "a === b" => "False",
    "a =!= b" => "True",
    "OrderedQ[{b, a}]" => "False",
    "AtomQ[f[x]]" => "False",
    "IntegerQ[7]" => "True",
    "StringQ[\"a\"]" => "True",
    "ListQ[{}]" => "True",
    "TrueQ[x]" => "False",
    "!True" => "False",
    "True && x" => "x",
    "False || x" => "x",
];

static CONTROL: &[Row] = values![
    "a = 2; a + 1" => "3",
    "If[1 < 2, yes, no]" => "yes",
    "Which[False, 1, True, 2]" => "2",
    "i = 0; While[i < 3, i++]; i" => "3",
    "n = 0; Do[n += i, {i, 4}]; n" => "10",
    "Table[i j, {i, 2}, {j, 3}]" => "{{1, 2, 3}, {2, 4, 6}}",
    "Sum[i^2, {i, 1, 5, 2}]" => "35",
    "Catch[Do[If[i > 3, Throw[i]], {i, 10}]]" => "4",
    "Throw[5]" => "Hold[Throw[5]]",
    "(# + 1 &)[2]" => "3",
    "Hold[1 + 1]" => "Hold[1 + 1]",
    "HoldComplete[Evaluate[a]]" => "HoldComplete[Evaluate[a]]",
    "Hold[Evaluate[1 + 1]]" => "Hold[2]",
    "Length[Unevaluated[1 + 2]]" => "2",
    "ReleaseHold[Hold[1 + 1]]" => "2",
    "Identity[x]" => "x",
    "f[a, Sequence[b, c]]" => "f[a, b, c]",
    "FullForm[a - b]" => "Plus[a, Times[-1, b]]",
    "InputForm[a - b]" => "a - b",
];

static ASSIGNMENT: &[Row] = values![
    "x = 2" => "2",
    "f[x_] := x + 1; f[2]" => "3",
    "area[sq] ^= 4" => "4",
    "area[sq] ^:= 2 + 2; area[sq]" => "4",
    "sq /: area[sq] = 2 + 2" => "4",
    "sq /: area[sq] := 4; area[sq]" => "4",
    "x = 1; x =.; x" => "x",
    "n = 1; {n++, n--, n}" => "{1, 2, 1}",
    "n = 1; {++n, --n}" => "{2, 1}",
    "n = 1; n += 2" => "3",
    "n = 1; n -= 2" => "-1",
    "n = 3; n *= 2" => "6",
    "l = {1}; AppendTo[l, 2]" => "{1, 2}",
    "l = {1}; PrependTo[l, 2]" => "{2, 1}",
    "x = 1; Clear[x]; x" => "x",
    "SetAttributes[g, Flat]; ClearAll[g]; Attributes[g]" => "{}",
    "SetAttributes[g, Flat]; g[g[a], b]" => "g[a, b]",
    "SetAttributes[g, Flat]; ClearAttributes[g, Flat]; Attributes[g]" => "{}",
    "Attributes[Rule]" => "{Protected, SequenceHold}",
    "Protect[x]; x = 1" => "$Failed",
    "Protect[x]; Unprotect[x]; x = 1" => "1",
];

static PARTS: &[Row] = values![
    "Head[f[x]]" => "f",
    "Length[{a, b}]" => "2",
    "{First[{a, b}], Last[{a, b}]}" => "{a, b}",
    "{Rest[{1, 2, 3}], Most[{1, 2, 3}]}" => "{{2, 3}, {1, 2}}",
    "{a, b, c}[[{1, -1}]]" => "{a, c}",
    "Take[{a, b, c}, -2]" => "{b, c}",
    "Drop[{a, b, c}, {2, 2}]" => "{a, c}",
    "{Append[{1}, 2], Prepend[{1}, 2]}" => "{{1, 2}, {2, 1}}",
    "Reverse[{1, 2, 3}]" => "{3, 2, 1}",
    "Sort[{b, 2, a}]" => "{2, a, b}",
    "Union[{b, a, b}, {c}]" => "{a, b, c}",
    "Join[{1}, {2, 3}]" => "{1, 2, 3}",
    "Flatten[{1, {2, {3}}}, 1]" => "{1, 2, {3}}",
    "Partition[{1, 2, 3}, 2]" => "{{1, 2}}",
    "Transpose[{{1, 2}, {3, 4}}]" => "{{1, 3}, {2, 4}}",
    "Total[{1, 2, 3}]" => "6",
    "Range[1, 6, 2]" => "{1, 3, 5}",
    "ConstantArray[x, 3]" => "{x, x, x}",
    "Array[f, 2]" => "{f[1], f[2]}",
];

static FUNCTIONS: &[Row] = values![
    "f /@ {a, b}" => "{f[a], f[b]}",
    "Plus @@ {1, 2, 3}" => "6",
    "Fold[f, x, {1, 2}]" => "f[f[x, 1], 2]",
    "FoldList[Plus, 0, {1, 2, 3}]" => "{0, 1, 3, 6}",
    "Nest[f, x, 2]" => "f[f[x]]",
    "NestList[2 # &, 1, 4]" => "{1, 2, 4, 8, 16}",
    "FixedPoint[Quotient[#, 2] &, 10]" => "0",
    "Select[{1, 2, 3}, OddQ]" => "{1, 3}",
    "MatchQ[f[1], f[_]]" => "True",
    "MemberQ[{1, x}, x]" => "True",
    "FreeQ[f[g[x]], x]" => "False",
    "Count[{1, a, 2}, _?IntegerQ]" => "2",
    "Cases[{f[1], g[2], f[3]}, f[x_] -> x]" => "{1, 3}",
    "f[x, y] /. {x -> 2, y -> 3}" => "f[2, 3]",
    "f[f[f[a]]] //. f[x_] -> x" => "a",
    "StringJoin[\"a\", \"b\"]" => "\"ab\"",
    "StringLength[\"aé\"]" => "2",
    "Characters[\"ab\"]" => "{\"a\", \"b\"}",
    "StringReverse[\"ab\"]" => "\"ba\"",
];

static DIFFERENCES: &[Row] = values![
    "Head[3]" => "Head[3]",
    "Count[{1, a}, _Integer]" => "0",
    "Count[{1, a}, _?IntegerQ]" => "1",
    "2^127" => "$Aborted",
    "6/4" => "6*4^(-1)",
    "2 (x + 1)" => "2*(1 + x)",
    "x^2 + y" => "y + x^2",
    "Sort[{f[a, b], g[c]}]" => "{g[c], f[a, b]}",
    "First[{}]" => "First[{}]",
    "Map[f, {a}, {1}]" => "Map[f, {a}, {1}]",
    "Clear[x, y]" => "Clear[x, y]",
    "Table[x, 3]" => "Table[x, 3]",
    "Sum[i, {i, n}]" => "Sum[i, {i, n}]",
    "Plus[Unevaluated[a], b]" => "a + b",
    "Cases[f[1, a], _?IntegerQ]" => "f[1]",
    "a + b + c /. a + b -> d" => "a + b + c",
    "x /. {{x -> 1}}" => "x /. {{x -> 1}}",
    "{1, 2, 3} //. {x_, y__} -> {y}" => "{3}",
    "x =." => "$Failed",
    "With[{x = y}, Function[y, x]]" => "Function[y, y]",
    "Module[{x}, x]" => "x$1",
    "3 x^-1" => "3*x^(-1)",
];

/// The script that shows what a script and its transcript are.
pub(crate) fn sample_script() -> &'static [Row] {
    SAMPLE_SCRIPT
}

/// Expressions, their text, evaluation and patterns.
pub(crate) fn text() -> &'static [Row] {
    TEXT
}

/// Refused assignments, and scoping.
pub(crate) fn definitions() -> &'static [Row] {
    DEFINITIONS
}

/// Numbers.
pub(crate) fn numbers() -> &'static [Row] {
    NUMBERS
}

/// Comparison and logic.
pub(crate) fn logic() -> &'static [Row] {
    LOGIC
}

/// Control.
pub(crate) fn control() -> &'static [Row] {
    CONTROL
}

/// Assignment.
pub(crate) fn assignment() -> &'static [Row] {
    ASSIGNMENT
}

/// Lists: their parts, and how they are made.
pub(crate) fn parts() -> &'static [Row] {
    PARTS
}

/// Lists: functions of their elements and patterns; strings.
pub(crate) fn functions() -> &'static [Row] {
    FUNCTIONS
}

/// What differs from the Wolfram Language.
pub(crate) fn differences() -> &'static [Row] {
    DIFFERENCES
}
