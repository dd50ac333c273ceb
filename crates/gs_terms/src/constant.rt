ghost use Rattle.std.specs.Prelude.{◌≡◌, ◌^◌, ◌≤◌, ◌<ℤ◌, ◌≤ℤ◌, pos, ◌+ℤ◌, ◌-ℤ◌, ◌*ℤ◌, unsigned_abs, if◌then◌else◌, ◌++◌, int_div, int_rem, Result, ℕ, ℤ, ◌+◌, ◌-◌, ◌/◌, ◌%◌, ◌<◌, min, max, int_lt, int_le, FitsSigned, IsTrue};
ghost use Rattle.std.specs.Ordering.{int_eq};
ghost use Rattle.std.specs.Int.{is_negative, w128, int_bit_and, int_bit_or, int_bit_xor, int_bit_not};
ghost use Rattle.gs_terms.specs.Constant as spec;
ghost use Rattle.gs_terms.specs.Constant.{exact, floor, bit};

use crate::kinds::{ConstFault, Op};
use crate::sig::Value;
use sqlite_items::Items;
use std::alloc::Global;
use std::cmp::Ordering;

/// What a binary operator gives of two constants. Only joining two texts takes memory.
pub fn const_op(alloc: Global, op: Op, a: &Value, b: &Value) -> Result<Value, ConstFault>
    ensures exact { spec.Answers (spec.const_op op a.now b.now) result }
    ensures memory { result ≡ Err ConstFault.NoMemory → spec.Joins op a.now b.now }
{
    match (a, b) {
        (Value::Truth(a), Value::Truth(b)) => of_truths(op, *a, *b),
        (Value::Whole(x), Value::Whole(y)) => of_wholes(op, *x, *y),
        (Value::Text(a), Value::Text(b)) => of_texts(alloc, op, a.as_slice(), b.as_slice()),
        _ => Err(ConstFault::WrongKind),
    }
}

/// What the operators on whole constants mean: an exact result is refused where it is no signed 128-bit integer, and
/// there alone; division truncates toward zero, with the remainder that is left; a shift to the right gives the greatest integer whose multiple isn't above; and each bit of `&`, `|`, `^` and
/// `&^` is that of the operator on the bits of both. Does nothing.
pub fn constant_law()
    ensures fits { (z : ℤ) → FitsSigned w128 z → exact z ≡ Ok (Value.Whole z) }
    ensures wide { (z : ℤ) → exact z ≡ Err ConstFault.Wide → FitsSigned w128 z → ⊥ }
    ensures division { (x y : ℤ) → int_div x y *ℤ y +ℤ int_rem x y ≡ x }
    ensures toward_zero { (x y : ℤ) → unsigned_abs (int_div x y) ≡ unsigned_abs x / unsigned_abs y }
    ensures remainder { (x y : ℤ) → 0 < unsigned_abs y → unsigned_abs (int_rem x y) < unsigned_abs y }
    ensures not_above { (x : ℤ) (m : ℕ) → 0 < m → IsTrue (int_le (floor x m *ℤ pos m) x) }
    ensures greatest { (x : ℤ) (m : ℕ) → 0 < m → IsTrue (int_lt x ((floor x m +ℤ pos 1) *ℤ pos m)) }
    ensures bits_and { (x y : ℤ) (k : ℕ) → FitsSigned w128 x → FitsSigned w128 y →
        bit (int_bit_and w128 x y) k ≡ min (bit x k) (bit y k) }
    ensures bits_or { (x y : ℤ) (k : ℕ) → FitsSigned w128 x → FitsSigned w128 y →
        bit (int_bit_or w128 x y) k ≡ max (bit x k) (bit y k) }
    ensures bits_xor { (x y : ℤ) (k : ℕ) → FitsSigned w128 x → FitsSigned w128 y →
        bit (int_bit_xor w128 x y) k ≡ (bit x k + bit y k) % 2 }
    ensures bits_and_not { (x y : ℤ) (k : ℕ) → FitsSigned w128 x → FitsSigned w128 y →
        bit (int_bit_and w128 x (int_bit_not w128 y)) k ≡ min (bit x k) (1 - bit y k) }
{}

fn of_truths(op: Op, a: bool, b: bool) -> Result<Value, ConstFault>
    ensures { result ≡ spec.of_truths op a b }
{
    match op {
        Op::Eq => Ok(Value::Truth(if a { b } else { !b })),
        Op::Ne => Ok(Value::Truth(if a { !b } else { b })),
        Op::LogAnd => Ok(Value::Truth(a && b)),
        Op::LogOr => Ok(Value::Truth(a || b)),
        _ => Err(ConstFault::WrongKind),
    }
}

fn of_wholes(op: Op, x: i128, y: i128) -> Result<Value, ConstFault>
    ensures { result ≡ spec.of_wholes op x y }
{
    match op {
        Op::Add => sum(x, y),
        Op::Sub => difference(x, y),
        Op::Mul => product(x, y),
        Op::Div => quotient(x, y),
        Op::Rem => remainder(x, y),
        Op::And => Ok(Value::Whole(x & y)),
        Op::Or => Ok(Value::Whole(x | y)),
        Op::Xor => Ok(Value::Whole(x ^ y)),
        Op::AndNot => Ok(Value::Whole(x & !y)),
        Op::Shl => shifted_left(x, y),
        Op::Shr => shifted_right(x, y),
        Op::LogAnd => Err(ConstFault::WrongKind),
        Op::LogOr => Err(ConstFault::WrongKind),
        _ => compared(op, x.cmp(&y)),
    }
}

fn of_texts(alloc: Global, op: Op, a: &[u8], b: &[u8]) -> Result<Value, ConstFault>
    ensures exact { spec.Answers (spec.of_texts op a.now b.now) result }
    ensures memory { result ≡ Err ConstFault.NoMemory → op ≡ Op.Add }
{
    match op {
        Op::Add => joined(alloc, a, b),
        _ => compared(op, a.cmp(&b)),
    }
}

fn joined(alloc: Global, a: &[u8], b: &[u8]) -> Result<Value, ConstFault>
    ensures { spec.Answers (Ok (Value.Text (a.now ++ b.now))) result }
{
    let mut text = match Vec::from_slice(alloc, a) {
        Ok(text) => text,
        Err(_) => return Err(ConstFault::NoMemory),
    };
    match text.extend_from_slice(b) {
        Ok(()) => Ok(Value::Text(Items::from_vec(text))),
        Err(_) => Err(ConstFault::NoMemory),
    }
}

fn compared(op: Op, order: Ordering) -> Result<Value, ConstFault>
    ensures { result ≡ spec.compared op order }
{
    match op {
        Op::Eq => Ok(Value::Truth(order.is_eq())),
        Op::Ne => Ok(Value::Truth(!order.is_eq())),
        Op::Lt => Ok(Value::Truth(order.is_lt())),
        Op::Le => Ok(Value::Truth(!order.is_gt())),
        Op::Gt => Ok(Value::Truth(order.is_gt())),
        Op::Ge => Ok(Value::Truth(!order.is_lt())),
        _ => Err(ConstFault::WrongKind),
    }
}

fn sum(x: i128, y: i128) -> Result<Value, ConstFault>
    ensures { result ≡ exact (x +ℤ y) }
{
    match x.checked_add(y) {
        Some(z) => Ok(Value::Whole(z)),
        None => Err(ConstFault::Wide),
    }
}

fn difference(x: i128, y: i128) -> Result<Value, ConstFault>
    ensures { result ≡ exact (x -ℤ y) }
{
    match x.checked_sub(y) {
        Some(z) => Ok(Value::Whole(z)),
        None => Err(ConstFault::Wide),
    }
}

fn product(x: i128, y: i128) -> Result<Value, ConstFault>
    ensures { result ≡ exact (x *ℤ y) }
{
    match x.checked_mul(y) {
        Some(z) => Ok(Value::Whole(z)),
        None => Err(ConstFault::Wide),
    }
}

fn quotient(x: i128, y: i128) -> Result<Value, ConstFault>
    ensures { result ≡ (if int_eq y (pos 0) then Err ConstFault.ZeroDivisor else exact (int_div x y)) }
{
    if y == 0 {
        Err(ConstFault::ZeroDivisor)
    } else {
        match x.checked_div(y) {
            Some(z) => Ok(Value::Whole(z)),
            None => Err(ConstFault::Wide),
        }
    }
}

/// The remainder always fits: that of the least number by -1 is 0.
fn remainder(x: i128, y: i128) -> Result<Value, ConstFault>
    ensures { result ≡ (if int_eq y (pos 0) then Err ConstFault.ZeroDivisor else exact (int_rem x y)) }
{
    if y == 0 {
        Err(ConstFault::ZeroDivisor)
    } else if y == -1 {
        Ok(Value::Whole(0))
    } else {
        Ok(Value::Whole(x % y))
    }
}

/// Takes no time by the count: from 127 on only 0 and -1 can stay within 128 bits.
fn shifted_left(x: i128, count: i128) -> Result<Value, ConstFault>
    ensures { result ≡ (if is_negative count then Err ConstFault.BadShift else exact (x *ℤ pos (2 ^ unsigned_abs count))) }
{
    if count < 0 {
        Err(ConstFault::BadShift)
    } else if x == 0 {
        Ok(Value::Whole(0))
    } else if count < 127 {
        product(x, 1 << count)
    } else if x == -1 && count == 127 {
        Ok(Value::Whole(i128::MIN))
    } else {
        Err(ConstFault::Wide)
    }
}

/// Takes no time by the count: from 127 on only the sign is left.
fn shifted_right(x: i128, count: i128) -> Result<Value, ConstFault>
    ensures { result ≡ (if is_negative count then Err ConstFault.BadShift else exact (floor x (2 ^ unsigned_abs count))) }
{
    if count < 0 {
        Err(ConstFault::BadShift)
    } else if count < 127 {
        Ok(Value::Whole(x >> count))
    } else if x < 0 {
        Ok(Value::Whole(-1))
    } else {
        Ok(Value::Whole(0))
    }
}
