// An expression word: a label of one of three sorts, or an operator.
ghost use Rattle.std.specs.Prelude.{◌≡◌, ◌&&◌, eqb, leb};
ghost use Rattle.files.specs.Field.{bits};
ghost use Rattle.files.specs.Refuse.{◌unless◌};
ghost use Rattle.files.specs.Path.{is_label, sort_of, has_ends, low_of, high_of, group_of, label_check, operator_check};
ghost use Rattle.files.specs.Groups.{is_range};
ghost use Rattle.files.specs.Refusal.{number};
ghost use Rattle.files.specs.Expr.{expr_check, label_at, operator_at, expr_at};

use crate::field::kind;
use crate::refusal::{Refusal, ensure};

// The labels that a label word holds: those of a range, its low and its high end; those of a group; or those outside a range.
#[derive(Clone, Copy)]
pub enum Label {
    Range(u16, u16),
    Group(u32),
    Outside(u16, u16),
}

// In the order of an operator word's number.
#[derive(Clone, Copy)]
pub enum Operator {
    Empty,
    Then,
    Or,
    Star,
}

#[derive(Clone, Copy)]
pub enum ExprWord {
    Label(Label),
    Operator(Operator),
}

pub fn is_label(w: u32) -> bool
    ensures { result ≡ is_label w }
{
    kind(w) == 5
}

fn sort(w: u32) -> u32
    ensures { result ≡ sort_of w }
{
    w / 0x0100_0000 % 16
}

fn has_ends(w: u32) -> bool
    ensures { result ≡ has_ends w }
{
    let k = sort(w);
    (k == 0) | (k == 2)
}

pub fn low(w: u32) -> u16
    ensures { result ≡ low_of w }
{
    (w % 0x1000) as u16
}

pub fn high(w: u32) -> u16
    ensures { result ≡ high_of w }
{
    (w / 0x1000 % 0x1000) as u16
}

fn group(w: u32) -> u32
    ensures { result ≡ group_of w }
{
    w % 8
}

pub fn read_operator(w: u32) -> Operator
    ensures { result ≡ operator_at w }
{
    match w % 4 {
        0 => Operator::Empty,
        1 => Operator::Then,
        2 => Operator::Or,
        _ => Operator::Star,
    }
}

// A range word, its low end not above the high one.
pub fn is_range(w: u32) -> bool
    ensures { result ≡ is_range w }
{
    is_label(w) & (sort(w) == 0) & (low(w) <= high(w))
}

fn check_range(w: u32) -> Result<(), Refusal>
    ensures { number result ≡ (5 unless leb (low_of w) (high_of w)) }
{
    ensure(low(w) <= high(w), Refusal::WrongWord)
}

fn check_group(w: u32) -> Result<(), Refusal>
    ensures { number result ≡ (5 unless (eqb (sort_of w) 1 && eqb (bits 23 3 w) 0)) }
{
    ensure(
        (sort(w) == 1) & (w / 8 % 0x20_0000 == 0),
        Refusal::WrongWord,
    )
}

fn check_label(w: u32) -> Result<(), Refusal>
    ensures { number result ≡ label_check w }
{
    if has_ends(w) {
        check_range(w)
    } else {
        check_group(w)
    }
}

fn check_operator(w: u32) -> Result<(), Refusal>
    ensures { number result ≡ operator_check w }
{
    ensure(
        (kind(w) == 6) & (w / 4 % 0x400_0000 == 0),
        Refusal::WrongWord,
    )
}

pub fn check_expr(w: u32) -> Result<(), Refusal>
    ensures { number result ≡ expr_check w }
{
    if is_label(w) {
        check_label(w)
    } else {
        check_operator(w)
    }
}

fn read_label(w: u32) -> Label
    ensures { result ≡ label_at w }
{
    let k = sort(w);
    if k == 0 {
        Label::Range(low(w), high(w))
    } else if k == 2 {
        Label::Outside(low(w), high(w))
    } else {
        Label::Group(group(w))
    }
}

// What an expression word says, or 5.
pub fn read_expr(w: u32) -> Result<ExprWord, Refusal>
    ensures { result ≡ expr_at w }
{
    check_expr(w)?;
    if is_label(w) {
        Ok(ExprWord::Label(read_label(w)))
    } else {
        Ok(ExprWord::Operator(read_operator(w)))
    }
}
