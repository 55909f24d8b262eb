ghost use Rattle.std.specs.Prelude.{◌≡◌, map};
ghost use Rattle.semantics.specs.Builtin.{rows};
ghost use Rattle.semantics.specs.Texts.{row_text};
ghost use Rattle.case_table.specs.Entries.{entries, builtin_entry};

use crate::table::{CaseTable, Code, Row};
use expr_tree::Attrs;
use semantics::Builtin;

// each name of the built-in table in the order of its places, its text, and the attributes that it has at the start
macro_rules! each_builtin {
    ($make:ident $($argument:tt)*) => {
        $make! {
            $($argument)*
            (Plus "Plus" [flat orderless listable protected])
            (Times "Times" [flat orderless listable protected])
            (Power "Power" [listable protected])
            (Minus "Minus" [protected])
            (Subtract "Subtract" [protected])
            (Divide "Divide" [protected])
            (Quotient "Quotient" [listable protected])
            (Mod "Mod" [listable protected])
            (Abs "Abs" [listable protected])
            (Sign "Sign" [listable protected])
            (GCD "GCD" [flat orderless listable protected])
            (Factorial "Factorial" [listable protected])
            (Max "Max" [flat orderless protected])
            (Min "Min" [flat orderless protected])
            (EvenQ "EvenQ" [protected])
            (OddQ "OddQ" [protected])
            (Equal "Equal" [protected])
            (Unequal "Unequal" [protected])
            (Less "Less" [protected])
            (LessEqual "LessEqual" [protected])
            (Greater "Greater" [protected])
            (GreaterEqual "GreaterEqual" [protected])
            (SameQ "SameQ" [protected])
            (UnsameQ "UnsameQ" [protected])
            (OrderedQ "OrderedQ" [protected])
            (AtomQ "AtomQ" [protected])
            (IntegerQ "IntegerQ" [protected])
            (StringQ "StringQ" [protected])
            (ListQ "ListQ" [protected])
            (TrueQ "TrueQ" [protected])
            (Not "Not" [protected])
            (And "And" [hold_all protected])
            (Or "Or" [hold_all protected])
            (CompoundExpression "CompoundExpression" [hold_all protected])
            (If "If" [hold_rest protected])
            (Which "Which" [hold_all protected])
            (While "While" [hold_all protected])
            (Do "Do" [hold_all protected])
            (Table "Table" [hold_all protected])
            (Sum "Sum" [hold_all protected])
            (Throw "Throw" [protected])
            (Catch "Catch" [hold_first protected])
            (Hold "Hold" [hold_all protected])
            (HoldComplete "HoldComplete" [hold_all_complete protected])
            (HoldPattern "HoldPattern" [hold_all protected])
            (Unevaluated "Unevaluated" [hold_all_complete protected])
            (Pattern "Pattern" [hold_first protected])
            (PatternTest "PatternTest" [hold_rest protected])
            (Condition "Condition" [hold_all protected])
            (RuleDelayed "RuleDelayed" [hold_rest sequence_hold protected])
            (Rule "Rule" [sequence_hold protected])
            (Function "Function" [hold_all protected])
            (Verbatim "Verbatim" [protected])
            (Blank "Blank" [protected])
            (BlankSequence "BlankSequence" [protected])
            (BlankNullSequence "BlankNullSequence" [protected])
            (Alternatives "Alternatives" [protected])
            (List "List" [protected])
            (Slot "Slot" [protected])
            (SlotSequence "SlotSequence" [protected])
            (Sequence "Sequence" [protected])
            (FullForm "FullForm" [protected])
            (InputForm "InputForm" [protected])
            (Null "Null" [protected])
            (True "True" [protected])
            (False "False" [protected])
            (EvaluationObject "EvaluationObject" [protected])
            (Method "Method" [protected])
            (Failed "$Failed" [protected])
            (Aborted "$Aborted" [protected])
            (Evaluate "Evaluate" [protected])
            (Identity "Identity" [protected])
            (ReleaseHold "ReleaseHold" [protected])
            (Module "Module" [hold_all protected])
            (Block "Block" [hold_all protected])
            (With "With" [hold_all protected])
            (Set "Set" [hold_first sequence_hold protected])
            (SetDelayed "SetDelayed" [hold_all sequence_hold protected])
            (UpSet "UpSet" [hold_first sequence_hold protected])
            (UpSetDelayed "UpSetDelayed" [hold_all sequence_hold protected])
            (TagSet "TagSet" [hold_all sequence_hold protected])
            (TagSetDelayed "TagSetDelayed" [hold_all sequence_hold protected])
            (Unset "Unset" [hold_first protected])
            (Increment "Increment" [hold_first protected])
            (Decrement "Decrement" [hold_first protected])
            (PreIncrement "PreIncrement" [hold_first protected])
            (PreDecrement "PreDecrement" [hold_first protected])
            (AddTo "AddTo" [hold_first protected])
            (SubtractFrom "SubtractFrom" [hold_first protected])
            (TimesBy "TimesBy" [hold_first protected])
            (AppendTo "AppendTo" [hold_first protected])
            (PrependTo "PrependTo" [hold_first protected])
            (Clear "Clear" [hold_all protected])
            (ClearAll "ClearAll" [hold_all protected])
            (SetAttributes "SetAttributes" [hold_first protected])
            (ClearAttributes "ClearAttributes" [hold_first protected])
            (Attributes "Attributes" [hold_all protected])
            (Protect "Protect" [hold_all protected])
            (Unprotect "Unprotect" [hold_all protected])
            (Flat "Flat" [protected])
            (Orderless "Orderless" [protected])
            (Listable "Listable" [protected])
            (HoldFirst "HoldFirst" [protected])
            (HoldRest "HoldRest" [protected])
            (HoldAll "HoldAll" [protected])
            (HoldAllComplete "HoldAllComplete" [protected])
            (SequenceHold "SequenceHold" [protected])
            (OneIdentity "OneIdentity" [protected])
            (Protected "Protected" [protected])
            (Head "Head" [protected])
            (Length "Length" [protected])
            (First "First" [protected])
            (Last "Last" [protected])
            (Rest "Rest" [protected])
            (Most "Most" [protected])
            (Part "Part" [protected])
            (Take "Take" [protected])
            (Drop "Drop" [protected])
            (Append "Append" [protected])
            (Prepend "Prepend" [protected])
            (Reverse "Reverse" [protected])
            (Sort "Sort" [protected])
            (Union "Union" [protected])
            (Join "Join" [protected])
            (Flatten "Flatten" [protected])
            (Partition "Partition" [protected])
            (Transpose "Transpose" [protected])
            (Total "Total" [protected])
            (Range "Range" [protected])
            (ConstantArray "ConstantArray" [protected])
            (Array "Array" [protected])
            (Map "Map" [protected])
            (Apply "Apply" [protected])
            (Fold "Fold" [protected])
            (FoldList "FoldList" [protected])
            (Nest "Nest" [protected])
            (NestList "NestList" [protected])
            (FixedPoint "FixedPoint" [protected])
            (Select "Select" [protected])
            (MatchQ "MatchQ" [protected])
            (MemberQ "MemberQ" [protected])
            (FreeQ "FreeQ" [protected])
            (Count "Count" [protected])
            (Cases "Cases" [protected])
            (ReplaceAll "ReplaceAll" [protected])
            (ReplaceRepeated "ReplaceRepeated" [protected])
            (StringJoin "StringJoin" [protected])
            (StringLength "StringLength" [protected])
            (Characters "Characters" [protected])
            (StringReverse "StringReverse" [protected])
            (ParallelSubmit "ParallelSubmit" [hold_all protected])
            (ParallelTable "ParallelTable" [hold_all protected])
            (ParallelDo "ParallelDo" [hold_all protected])
            (ParallelSum "ParallelSum" [hold_all protected])
            (ParallelEvaluate "ParallelEvaluate" [hold_all protected])
            (CriticalSection "CriticalSection" [hold_all protected])
            (DistributeDefinitions "DistributeDefinitions" [hold_all protected])
            (SetSharedVariable "SetSharedVariable" [hold_all protected])
            (SetSharedFunction "SetSharedFunction" [hold_all protected])
            (ParallelMap "ParallelMap" [protected])
            (ParallelCombine "ParallelCombine" [protected])
            (ParallelTry "ParallelTry" [protected])
            (WaitAll "WaitAll" [protected])
            (WaitNext "WaitNext" [protected])
            (Print "Print" [protected])
            (Quit "Quit" [protected])
            (KernelID "$KernelID" [protected])
            (KernelCount "$KernelCount" [protected])
        }
    };
}

macro_rules! builtin_count {
    ($(($code:ident $name:literal $attrs:tt))*) => {
        [$($name),*].len()
    };
}

/// The number of the names of the built-in table.
pub const BUILTINS: usize = each_builtin!(builtin_count);

macro_rules! builtin_rows {
    ($(($code:ident $name:literal [$($attr:ident)*]))*) => {
        [$(Row {
            name: $name,
            attrs: Attrs { $($attr: true,)* ..NONE },
            code: Code::Builtin(Builtin::$code),
        }),*]
    };
}

macro_rules! builtin_names {
    ($chosen:tt $(($code:ident $name:literal $attrs:tt))*) => {
        match $chosen {
            $(Builtin::$code => $name,)*
        }
    };
}

const NONE: Attrs = Attrs {
    flat: false,
    orderless: false,
    listable: false,
    hold_first: false,
    hold_rest: false,
    hold_all: false,
    hold_all_complete: false,
    sequence_hold: false,
    one_identity: false,
    protected: false,
};

static ROWS: [Row; BUILTINS] = each_builtin!(builtin_rows);

/// The built-in table.
pub fn builtins() -> CaseTable
    ensures { entries result.rows.now ≡ map builtin_entry rows }
{
    CaseTable { rows: &ROWS }
}

/// The name of a row in the language.
pub fn name_of(row: Builtin) -> &'static str
    ensures { result.now ≡ row_text row }
{
    each_builtin!(builtin_names row)
}
