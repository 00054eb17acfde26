ghost use Rattle.casm_text.specs.Working.Parsing.{next_is as next_is_of, others as others_of, digits_first as digits_first_of, offset_first as offset_first_of, register_first as register_first_of, cell_first as cell_first_of, numeral_first as numeral_first_of, operand_first as operand_first_of, source_after as source_after_of, double_first as double_first_of, source_first as source_first_of, assert_in as assert_of, label_first as label_first_of, aim_first as aim_first_of, jump_in as jump_of, jump_after as jump_after_of, call_in as call_of, relative_call_in as relative_call_of, add_in as add_of, word_in as word_of, statement_in as statement_in_of, label_in as label_in_of, line_in as line_in_of, step_at_end as step_at_end_of};
ghost use Rattle.casm_text.specs.Statements.{grammar_words, is_name as name_test};
ghost use Rattle.casm_text.specs.Tokens.{is_digits as digits_test};
ghost use Rattle.casm_text.specs.Working.Views.{slices, offset_view, cell_view, numeral_view, operand_view, source_view, aim_view, statement_view, line_view};
ghost use Rattle.casm_text.specs.Tokens.{is_name_byte as name_byte_test};
ghost use Rattle.std.specs.List.{list_all, list_any};
ghost use Rattle.std.specs.Prelude.{◌≡◌, bytes_eq, option_map};

use crate::syntax::{Aim, Cell, Line, Numeral, Offset, Operand, Source, Statement};
use crate::tokens::{is_digit, is_letter, is_name_byte};
use cairo_word::Reg;

fn next_is(token: &[u8], tokens: &[&[u8]]) -> bool
    ensures { result ≡ next_is_of token.now (slices tokens.now) }
{
    if tokens.is_empty() {
        false
    } else {
        tokens[0] == token
    }
}

fn others<'t, 'a>(tokens: &'t [&'a [u8]]) -> &'t [&'a [u8]]
    ensures { slices result.now ≡ others_of (slices tokens.now) }
{
    if tokens.is_empty() {
        tokens
    } else {
        &tokens[1..]
    }
}

fn is_digits(token: &[u8]) -> bool
    ensures { result ≡ digits_test token.now }
{
    !token.is_empty() && token.iter().all(|c| is_digit(*c))
}

fn digits_first<'t, 'a>(tokens: &'t [&'a [u8]]) -> Option<(&'a [u8], &'t [&'a [u8]])>
    ensures { option_map (λ r. (r.0.now, slices r.1.now)) result ≡ digits_first_of (slices tokens.now) }
{
    if tokens.is_empty() || !is_digits(tokens[0]) {
        return None;
    }
    Some((tokens[0], &tokens[1..]))
}

fn offset_first<'t, 'a>(tokens: &'t [&'a [u8]]) -> Option<(Offset<'a>, &'t [&'a [u8]])>
    ensures { option_map (λ r. (offset_view r.0, slices r.1.now)) result ≡ offset_first_of (slices tokens.now) }
{
    if next_is(b"+", tokens) {
        let (digits, rest) = digits_first(others(tokens))?;
        return Some((Offset::Plus(digits), rest));
    }
    if next_is(b"-", tokens) {
        let (digits, rest) = digits_first(others(tokens))?;
        return Some((Offset::Minus(digits), rest));
    }
    Some((Offset::None, tokens))
}

fn register_first<'t, 'a>(tokens: &'t [&'a [u8]]) -> Option<(Reg, &'t [&'a [u8]])>
    ensures { option_map (λ r. (r.0, slices r.1.now)) result ≡ register_first_of (slices tokens.now) }
{
    if next_is(b"ap", tokens) {
        Some((Reg::Ap, others(tokens)))
    } else if next_is(b"fp", tokens) {
        Some((Reg::Fp, others(tokens)))
    } else {
        None
    }
}

fn cell_first<'t, 'a>(tokens: &'t [&'a [u8]]) -> Option<(Cell<'a>, &'t [&'a [u8]])>
    ensures { option_map (λ r. (cell_view r.0, slices r.1.now)) result ≡ cell_first_of (slices tokens.now) }
{
    if !next_is(b"[", tokens) {
        return None;
    }
    let (register, rest) = register_first(others(tokens))?;
    let (offset, rest) = offset_first(rest)?;
    if !next_is(b"]", rest) {
        return None;
    }
    Some((Cell { register, offset }, others(rest)))
}

fn numeral_first<'t, 'a>(tokens: &'t [&'a [u8]]) -> Option<(Numeral<'a>, &'t [&'a [u8]])>
    ensures { option_map (λ r. (numeral_view r.0, slices r.1.now)) result ≡ numeral_first_of (slices tokens.now) }
{
    if next_is(b"-", tokens) {
        let (digits, rest) = digits_first(others(tokens))?;
        return Some((Numeral::Negative(digits), rest));
    }
    let (digits, rest) = digits_first(tokens)?;
    Some((Numeral::Positive(digits), rest))
}

fn operand_first<'t, 'a>(tokens: &'t [&'a [u8]]) -> Option<(Operand<'a>, &'t [&'a [u8]])>
    ensures { option_map (λ r. (operand_view r.0, slices r.1.now)) result ≡ operand_first_of (slices tokens.now) }
{
    if next_is(b"[", tokens) {
        let (cell, rest) = cell_first(tokens)?;
        return Some((Operand::Cell(cell), rest));
    }
    let (numeral, rest) = numeral_first(tokens)?;
    Some((Operand::Numeral(numeral), rest))
}

fn source_after<'t, 'a>(
    left: Cell<'a>,
    tokens: &'t [&'a [u8]],
) -> Option<(Source<'a>, &'t [&'a [u8]])>
    ensures { option_map (λ r. (source_view r.0, slices r.1.now)) result ≡ source_after_of (cell_view left.entry) (slices tokens.now) }
{
    if next_is(b"+", tokens) {
        let (right, rest) = operand_first(others(tokens))?;
        return Some((Source::Sum(left, right), rest));
    }
    if next_is(b"*", tokens) {
        let (right, rest) = operand_first(others(tokens))?;
        return Some((Source::Product(left, right), rest));
    }
    Some((Source::Copy(Operand::Cell(left)), tokens))
}

fn double_first<'t, 'a>(tokens: &'t [&'a [u8]]) -> Option<(Source<'a>, &'t [&'a [u8]])>
    ensures { option_map (λ r. (source_view r.0, slices r.1.now)) result ≡ double_first_of (slices tokens.now) }
{
    if !next_is(b"[", tokens) {
        return None;
    }
    let (cell, rest) = cell_first(others(tokens))?;
    let (offset, rest) = offset_first(rest)?;
    if !next_is(b"]", rest) {
        return None;
    }
    Some((Source::Double(cell, offset), others(rest)))
}

fn source_first<'t, 'a>(tokens: &'t [&'a [u8]]) -> Option<(Source<'a>, &'t [&'a [u8]])>
    ensures { option_map (λ r. (source_view r.0, slices r.1.now)) result ≡ source_first_of (slices tokens.now) }
{
    if !next_is(b"[", tokens) {
        let (numeral, rest) = numeral_first(tokens)?;
        return Some((Source::Copy(Operand::Numeral(numeral)), rest));
    }
    if next_is(b"[", others(tokens)) {
        return double_first(tokens);
    }
    let (left, rest) = cell_first(tokens)?;
    source_after(left, rest)
}

fn label_first<'t, 'a>(tokens: &'t [&'a [u8]]) -> Option<(Aim<'a>, &'t [&'a [u8]])>
    ensures { option_map (λ r. (aim_view r.0, slices r.1.now)) result ≡ label_first_of (slices tokens.now) }
{
    if tokens.is_empty() || !is_name(tokens[0]) {
        return None;
    }
    Some((Aim::Label(tokens[0]), &tokens[1..]))
}

fn aim_first<'t, 'a>(tokens: &'t [&'a [u8]]) -> Option<(Aim<'a>, &'t [&'a [u8]])>
    ensures { option_map (λ r. (aim_view r.0, slices r.1.now)) result ≡ aim_first_of (slices tokens.now) }
{
    if next_is(b"rel", tokens) {
        let (operand, rest) = operand_first(others(tokens))?;
        return Some((Aim::By(operand), rest));
    }
    label_first(tokens)
}

fn assert_in<'a>(tokens: &[&'a [u8]]) -> Option<Statement<'a>>
    ensures { option_map statement_view result ≡ assert_of (slices tokens.now) }
{
    let (cell, rest) = cell_first(tokens)?;
    if !next_is(b"=", rest) {
        return None;
    }
    let (source, rest) = source_first(others(rest))?;
    let step = step_at_end(rest)?;
    Some(Statement::Assert(cell, source, step))
}

fn step_at_end(tokens: &[&[u8]]) -> Option<bool>
    ensures { result ≡ step_at_end_of (λ step. step) (slices tokens.now) }
{
    if tokens.is_empty() {
        return Some(false);
    }
    if tokens.len() == 3
        && next_is(b",", tokens)
        && next_is(b"ap", others(tokens))
        && next_is(b"++", others(others(tokens)))
    {
        Some(true)
    } else {
        None
    }
}

fn jump_in<'a>(tokens: &[&'a [u8]]) -> Option<Statement<'a>>
    ensures { option_map statement_view result ≡ jump_of (slices tokens.now) }
{
    if next_is(b"abs", tokens) {
        let (operand, rest) = operand_first(others(tokens))?;
        let step = step_at_end(rest)?;
        return Some(Statement::JumpAbs(operand, step));
    }
    let (aim, rest) = aim_first(tokens)?;
    jump_after(aim, rest)
}

fn jump_after<'a>(aim: Aim<'a>, tokens: &[&'a [u8]]) -> Option<Statement<'a>>
    ensures { option_map statement_view result ≡ jump_after_of (aim_view aim.entry) (slices tokens.now) }
{
    if !next_is(b"if", tokens) {
        let step = step_at_end(tokens)?;
        return Some(Statement::Jump(aim, step));
    }
    let (cell, rest) = cell_first(others(tokens))?;
    if !next_is(b"!=", rest) || !next_is(b"0", others(rest)) {
        return None;
    }
    let step = step_at_end(others(others(rest)))?;
    Some(Statement::JumpIf(aim, cell, step))
}

fn call_in<'a>(tokens: &[&'a [u8]]) -> Option<Statement<'a>>
    ensures { option_map statement_view result ≡ call_of (slices tokens.now) }
{
    if next_is(b"abs", tokens) {
        let (operand, rest) = operand_first(others(tokens))?;
        return if rest.is_empty() {
            Some(Statement::CallAbs(operand))
        } else {
            None
        };
    }
    relative_call_in(tokens)
}

fn relative_call_in<'a>(tokens: &[&'a [u8]]) -> Option<Statement<'a>>
    ensures { option_map statement_view result ≡ relative_call_of (slices tokens.now) }
{
    let (aim, rest) = aim_first(tokens)?;
    if !rest.is_empty() {
        return None;
    }
    Some(Statement::Call(aim))
}

fn add_in<'a>(tokens: &[&'a [u8]]) -> Option<Statement<'a>>
    ensures { option_map statement_view result ≡ add_of (slices tokens.now) }
{
    if !next_is(b"+=", tokens) {
        return None;
    }
    let (operand, rest) = operand_first(others(tokens))?;
    if rest.is_empty() {
        Some(Statement::AddAp(operand))
    } else {
        None
    }
}

fn word_in<'a>(tokens: &[&'a [u8]]) -> Option<Statement<'a>>
    ensures { option_map statement_view result ≡ word_of (slices tokens.now) }
{
    let (numeral, rest) = numeral_first(tokens)?;
    if rest.is_empty() {
        Some(Statement::Word(numeral))
    } else {
        None
    }
}

fn statement_in<'a>(tokens: &[&'a [u8]]) -> Option<Statement<'a>>
    ensures { option_map statement_view result ≡ statement_in_of (slices tokens.now) }
{
    if next_is(b"[", tokens) {
        assert_in(tokens)
    } else if next_is(b"jmp", tokens) {
        jump_in(others(tokens))
    } else if next_is(b"call", tokens) {
        call_in(others(tokens))
    } else if next_is(b"ret", tokens) {
        if tokens.len() == 1 {
            Some(Statement::Ret)
        } else {
            None
        }
    } else if next_is(b"ap", tokens) {
        add_in(others(tokens))
    } else if next_is(b"word", tokens) {
        word_in(others(tokens))
    } else {
        None
    }
}

fn label_in<'a>(tokens: &[&'a [u8]]) -> Option<Line<'a>>
    ensures { option_map line_view result ≡ label_in_of (slices tokens.now) }
{
    if tokens.is_empty() {
        return None;
    }
    if !is_name(tokens[0]) || !next_is(b":", others(tokens)) {
        return None;
    }
    if !others(others(tokens)).is_empty() {
        return None;
    }
    Some(Line::Label(tokens[0]))
}

/// The line that these tokens spell, if any.
pub(crate) fn line_in<'a>(tokens: &[&'a [u8]]) -> Option<Line<'a>>
    ensures { option_map line_view result ≡ line_in_of (slices tokens.now) }
{
    if tokens.is_empty() {
        return Some(Line::Empty);
    }
    if let Some(line) = label_in(tokens) {
        return Some(line);
    }
    let statement = statement_in(tokens)?;
    Some(Line::Statement(statement))
}

// A letter, then letters, digits or `_`, other than a word of the grammar.
fn is_name(token: &[u8]) -> bool
    ensures { result ≡ name_test token.now }
{
    !token.is_empty() && is_letter(token[0]) && is_name_bytes(token) && !is_grammar_word(token)
}

fn is_name_bytes(token: &[u8]) -> bool
    ensures { result ≡ list_all name_byte_test token.now }
{
    token.iter().all(|c| is_name_byte(*c))
}

fn is_grammar_word(token: &[u8]) -> bool
    ensures { result ≡ list_any (bytes_eq token.now) grammar_words }
{
    same(token, b"ap")
        || same(token, b"fp")
        || same(token, b"jmp")
        || same(token, b"rel")
        || same(token, b"abs")
        || same(token, b"if")
        || same(token, b"call")
        || same(token, b"ret")
        || same(token, b"word")
}

fn same(a: &[u8], b: &[u8]) -> bool
    ensures { result ≡ bytes_eq a.now b.now }
{
    a == b
}
