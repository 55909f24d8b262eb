ghost use Rattle.std.specs.Prelude.{◌≡◌, ◌≤◌, ◌<◌, map, length, None, IfOk, IfErr};
ghost use Rattle.expr_tree.specs.Tree.{depth};
ghost use Rattle.script_text.specs.Laws.{IsKept};
ghost use Rattle.script_text.specs.Spelling.{place_in};
ghost use Rattle.syntax.specs.Terminals.{terminal};
ghost use Rattle.syntax.specs.Tokens as syn;
ghost use Rattle.builtin_names.specs.Named.{names_in};
ghost use Rattle.lex_form.specs.Lexes as form;
ghost use Rattle.lex_form.specs.Scans.{kind_of};
ghost use Rattle.lex_form.specs.Shapes.{IsToken};
ghost use Rattle.phrase_form.specs.Machine.{state_in, step_at, steps_to};
ghost use Rattle.read_form.specs.Answers.{IsReading, IsNo};
ghost use Rattle.read_form.specs.Gone.{HasGone};
ghost use Rattle.read_form.specs.Kept.{AreKeptNames};
ghost use Rattle.read_form.specs.Pieces.{lexeme_at};

use crate::fault::ReadNo;
use crate::words::terminal_of;
use builtin_names::{Vocabulary, name};
use expr_tree::Expr;
use lex_form::{LexFault, Lexed, Token, Tokens, lex};
use phrase_form::{Machine, Step};
use semantics::Builtin;
use std::alloc::{AllocError, Global};

/// Reads a cell. A cell without tokens is Null.
pub fn read_cell(alloc: Global, names: &Vocabulary, cell: &str) -> Result<Expr, ReadNo>
    requires kept { AreKeptNames names.now.texts (syn.names_in cell.now (syn.lex cell.now).tokens) }
    requires short { length cell.now ≤ 1048576 }
    ensures read { IfOk result (λ e. IsReading names.now cell.now e) }
    ensures kept { IfOk result (λ e. IsKept (length names.now.texts) e) }
    ensures shallow { IfOk result (λ e. depth e ≤ 512) }
    ensures no { IfErr result (λ no. IsNo names.now cell.now no) }
{
    let lexed = lex(alloc, cell)?;
    read_lexed(alloc, names, cell, &lexed)
}

/// Reads a cell whose tokens are known.
pub fn read_lexed(
    alloc: Global,
    names: &Vocabulary,
    cell: &str,
    lexed: &Lexed,
) -> Result<Expr, ReadNo>
    requires lexed { form.lexed lexed.now ≡ syn.lex cell.now }
    requires kept { AreKeptNames names.now.texts (syn.names_in cell.now (syn.lex cell.now).tokens) }
    requires short { length cell.now ≤ 1048576 }
    ensures read { IfOk result (λ e. IsReading names.now cell.now e) }
    ensures kept { IfOk result (λ e. IsKept (length names.now.texts) e) }
    ensures shallow { IfOk result (λ e. depth e ≤ 512) }
    ensures no { IfErr result (λ no. IsNo names.now cell.now no) }
{
    let machine = go_over(alloc, names, cell, &lexed.tokens)?;
    if let Some(fault) = lexed.fault {
        return Err(ReadNo::Syntax(place_of(fault)));
    }
    let _rows = names.names();
    if lexed.tokens.is_empty() {
        return Ok(name(names, Builtin::Null));
    }
    conclude(alloc, names, cell, machine)
}

/// Takes the machine over the tokens, as long as some cell goes on with them.
fn go_over(
    alloc: Global,
    names: &Vocabulary,
    cell: &str,
    tokens: &Tokens,
) -> Result<Machine, ReadNo>
    requires tokens { map form.token_of tokens.now ≡ (syn.lex cell.now).tokens }
    requires kept { AreKeptNames names.now.texts (syn.names_in cell.now (syn.lex cell.now).tokens) }
    ensures gone { IfOk result (λ machine. HasGone (names_in names.now) (place_in names.now.texts) cell.now (length (syn.lex cell.now).tokens) (state_in (names_in names.now) machine)) }
    ensures no { IfErr result (λ no. IsNo names.now cell.now no) }
{
    let mut machine = Machine::new(alloc);
    let mut at = 0;
    for token in tokens.as_slice() {
        match step_over(alloc, names, cell, at, *token, &mut machine)? {
            Step::Goes => at = token.to,
            Step::Stops => return Err(ReadNo::Syntax(token.from)),
        }
    }
    Ok(machine)
}

/// Takes the machine over a token, where the one before ends at a place.
fn step_over(
    alloc: Global,
    names: &Vocabulary,
    cell: &str,
    at: usize,
    token: Token,
    machine: &mut Machine,
) -> Result<Step, AllocError>
    requires token { IsToken cell.now at (form.token_of token) }
    requires kept { AreKeptNames names.now.texts (syn.token_names (kind_of token.kind) (syn.token_text cell.now (form.token_of token))) }
    ensures { IfOk result (λ step. steps_to (names_in names.now) step machine.new ≡ step_at (names_in names.now) (terminal (names_in names.now) (place_in names.now.texts) (lexeme_at cell.now at (form.token_of token))) (state_in (names_in names.now) machine.old)) }
{
    let terminal = terminal_of(alloc, names, cell, at, token)?;
    machine.step(alloc, names, terminal)
}

/// The place of a fault.
fn place_of(fault: LexFault) -> usize
    ensures { result ≡ syn.place_of_fault (form.fault_of fault) }
{
    match fault {
        LexFault::BadByte(place)
        | LexFault::OpenString(place)
        | LexFault::OpenComment(place)
        | LexFault::WideNumber(place) => place,
    }
}

/// The expression of a cell, where the machine has gone over all tokens and there is no fault.
fn conclude(alloc: Global, names: &Vocabulary, cell: &str, machine: Machine) -> Result<Expr, ReadNo>
    requires gone { HasGone (names_in names.now) (place_in names.now.texts) cell.now (length (syn.lex cell.now).tokens) (state_in (names_in names.now) machine) }
    requires some { 0 < length (syn.lex cell.now).tokens }
    requires kept { AreKeptNames names.now.texts (syn.names_in cell.now (syn.lex cell.now).tokens) }
    requires faultless { (syn.lex cell.now).fault ≡ None }
    requires short { length cell.now ≤ 1048576 }
    ensures read { IfOk result (λ e. IsReading names.now cell.now e) }
    ensures kept { IfOk result (λ e. IsKept (length names.now.texts) e) }
    ensures shallow { IfOk result (λ e. depth e ≤ 512) }
    ensures no { IfErr result (λ no. IsNo names.now cell.now no) }
{
    let _rows = names.names();
    match machine.finish(alloc, names)? {
        Some(kept) => match kept.into_expr(alloc)? {
            Some(e) => Ok(e),
            None => Err(ReadNo::TooDeep),
        },
        None => Err(ReadNo::Syntax(cell.len())),
    }
}
