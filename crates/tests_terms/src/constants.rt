use crate::table::{cut, rows};
use gs_terms::{
    ConstFault, Op, Value, const_op, constant_law, error_sig, error_symbol, is_error, universe,
    universe_law,
};
use sqlite_items::Items;
use std::alloc::Global;
use std::process::Abort;
use std::test::Fail;

/// Each operator as it is written.
const OPERATORS: [(&str, Op); 19] = [
    ("+", Op::Add),
    ("-", Op::Sub),
    ("*", Op::Mul),
    ("/", Op::Div),
    ("%", Op::Rem),
    ("&", Op::And),
    ("|", Op::Or),
    ("^", Op::Xor),
    ("&^", Op::AndNot),
    ("<<", Op::Shl),
    (">>", Op::Shr),
    ("==", Op::Eq),
    ("!=", Op::Ne),
    ("<", Op::Lt),
    ("<=", Op::Le),
    (">", Op::Gt),
    (">=", Op::Ge),
    ("&&", Op::LogAnd),
    ("||", Op::LogOr),
];

/// Go specification, "Arithmetic operators", "Integer operators" and "Comparison operators": an operator between two
/// whole numbers, and what it gives.
const WHOLES: &str = "\
5 / 3 = 1
5 % 3 = 2
-5 / 3 = -1
-5 % 3 = -2
5 / -3 = -1
5 % -3 = 2
-5 / -3 = 1
-5 % -3 = -2
6 / 3 = 2
6 % 3 = 0
-6 / 3 = -2
-6 % 3 = 0
0 / 7 = 0
0 % 7 = 0
12 & 10 = 8
12 | 10 = 14
12 ^ 10 = 6
12 &^ 10 = 4
-1 & 255 = 255
-1 | 255 = -1
-1 ^ 255 = -256
-1 &^ 255 = -256
-2 & 1 = 0
-2 | 1 = -1
-2 ^ 1 = -1
-2 &^ 1 = -2
-8 & 3 = 0
-8 | 3 = -5
-8 ^ 3 = -5
-8 &^ 3 = -8
5 & -1 = 5
5 | -1 = -1
5 ^ -1 = -6
5 &^ -1 = 0
3 << 4 = 48
1 << 126 = 85070591730234615865843651857942052864
1 << 127 = Wide
-1 << 127 = MIN
-1 << 128 = Wide
-2 << 126 = MIN
-2 << 127 = Wide
0 << 1000 = 0
1 << 1000 = Wide
-1 >> 1000 = -1
5 >> 1000 = 0
-5 >> 1 = -3
5 >> 1 = 2
MIN >> 126 = -2
MIN >> 127 = -1
MIN >> 128 = -1
MAX >> 126 = 1
MAX >> 127 = 0
7 == 7 = true
7 != 7 = false
7 < 7 = false
7 <= 7 = true
7 > 7 = false
7 >= 7 = true
-1 == 0 = false
-1 != 0 = true
-1 < 0 = true
-1 <= 0 = true
-1 > 0 = false
-1 >= 0 = false
3 == -3 = false
3 != -3 = true
3 < -3 = false
3 <= -3 = false
3 > -3 = true
3 >= -3 = true";

/// The least and the greatest numbers of 128 bits under every operator, by a program with exact integers.
const AT_THE_ENDS: &str = "\
MIN + MIN = Wide
MIN + MAX = -1
MIN + -1 = Wide
MIN + 1 = MIN+1
MIN+1 + -1 = MIN
MIN+1 + 1 = -170141183460469231731687303715884105726
MAX + 1 = Wide
-1 + MIN = Wide
MIN + 0 = MIN
MIN - MIN = 0
MIN - MAX = Wide
MIN - -1 = MIN+1
MIN - 1 = Wide
MIN+1 - -1 = -170141183460469231731687303715884105726
MIN+1 - 1 = MIN
MAX - 1 = MAX-1
-1 - MIN = MAX
MIN - 0 = MIN
MIN * MIN = Wide
MIN * MAX = Wide
MIN * -1 = Wide
MIN * 1 = MIN
MIN+1 * -1 = MAX
MIN+1 * 1 = MIN+1
MAX * 1 = MAX
-1 * MIN = Wide
MIN * 0 = 0
MIN / MIN = 1
MIN / MAX = -1
MIN / -1 = Wide
MIN / 1 = MIN
MIN+1 / -1 = MAX
MIN+1 / 1 = MIN+1
MAX / 1 = MAX
-1 / MIN = 0
MIN / 0 = ZeroDivisor
MIN % MIN = 0
MIN % MAX = -1
MIN % -1 = 0
MIN % 1 = 0
MIN+1 % -1 = 0
MIN+1 % 1 = 0
MAX % 1 = 0
-1 % MIN = -1
MIN % 0 = ZeroDivisor
MIN & MIN = MIN
MIN & MAX = 0
MIN & -1 = MIN
MIN & 1 = 0
MIN+1 & -1 = MIN+1
MIN+1 & 1 = 1
MAX & 1 = 1
-1 & MIN = MIN
MIN & 0 = 0
MIN | MIN = MIN
MIN | MAX = -1
MIN | -1 = -1
MIN | 1 = MIN+1
MIN+1 | -1 = -1
MIN+1 | 1 = MIN+1
MAX | 1 = MAX
-1 | MIN = -1
MIN | 0 = MIN
MIN ^ MIN = 0
MIN ^ MAX = -1
MIN ^ -1 = MAX
MIN ^ 1 = MIN+1
MIN+1 ^ -1 = MAX-1
MIN+1 ^ 1 = MIN
MAX ^ 1 = MAX-1
-1 ^ MIN = MAX
MIN ^ 0 = MIN
MIN &^ MIN = 0
MIN &^ MAX = MIN
MIN &^ -1 = 0
MIN &^ 1 = MIN
MIN+1 &^ -1 = 0
MIN+1 &^ 1 = MIN
MAX &^ 1 = MAX-1
-1 &^ MIN = MAX
MIN &^ 0 = MIN
MIN << MIN = BadShift
MIN << MAX = Wide
MIN << -1 = BadShift
MIN << 1 = Wide
MIN+1 << -1 = BadShift
MIN+1 << 1 = Wide
MAX << 1 = Wide
-1 << MIN = BadShift
MIN << 0 = MIN
MIN >> MIN = BadShift
MIN >> MAX = -1
MIN >> -1 = BadShift
MIN >> 1 = -85070591730234615865843651857942052864
MIN+1 >> -1 = BadShift
MIN+1 >> 1 = -85070591730234615865843651857942052864
MAX >> 1 = 85070591730234615865843651857942052863
-1 >> MIN = BadShift
MIN >> 0 = MIN
MIN == MIN = true
MIN == MAX = false
MIN == -1 = false
MIN == 1 = false
MIN+1 == -1 = false
MIN+1 == 1 = false
MAX == 1 = false
-1 == MIN = false
MIN == 0 = false
MIN != MIN = false
MIN != MAX = true
MIN != -1 = true
MIN != 1 = true
MIN+1 != -1 = true
MIN+1 != 1 = true
MAX != 1 = true
-1 != MIN = true
MIN != 0 = true
MIN < MIN = false
MIN < MAX = true
MIN < -1 = true
MIN < 1 = true
MIN+1 < -1 = true
MIN+1 < 1 = true
MAX < 1 = false
-1 < MIN = false
MIN < 0 = true
MIN <= MIN = true
MIN <= MAX = true
MIN <= -1 = true
MIN <= 1 = true
MIN+1 <= -1 = true
MIN+1 <= 1 = true
MAX <= 1 = false
-1 <= MIN = false
MIN <= 0 = true
MIN > MIN = false
MIN > MAX = false
MIN > -1 = false
MIN > 1 = false
MIN+1 > -1 = false
MIN+1 > 1 = false
MAX > 1 = true
-1 > MIN = true
MIN > 0 = false
MIN >= MIN = true
MIN >= MAX = false
MIN >= -1 = false
MIN >= 1 = false
MIN+1 >= -1 = false
MIN+1 >= 1 = false
MAX >= 1 = true
-1 >= MIN = true
MIN >= 0 = false";

/// Texts stand behind a quote, and compare by their bytes.
const TEXTS_AND_TRUTHS: &str = "\
'a == 'b = false
'a != 'b = true
'a < 'b = true
'a <= 'b = true
'a > 'b = false
'a >= 'b = false
'a == 'ab = false
'a != 'ab = true
'a < 'ab = true
'a <= 'ab = true
'a > 'ab = false
'a >= 'ab = false
' == ' = true
' != ' = false
' < ' = false
' <= ' = true
' > ' = false
' >= ' = true
'b == 'ab = false
'b != 'ab = true
'b < 'ab = false
'b <= 'ab = false
'b > 'ab = true
'b >= 'ab = true
'é == 'z = false
'é != 'z = true
'é < 'z = false
'é <= 'z = false
'é > 'z = true
'é >= 'z = true
'a + 'b = 'ab
'ab + ' = 'ab
' + ' = '
true == true = true
true != true = false
true && true = true
true || true = true
true == false = false
true != false = true
true && false = false
true || false = true
false == true = false
false != true = true
false && true = false
false || true = true
false == false = true
false != false = false
false && false = false
false || false = false";

const WRONG_KINDS: &str = "\
true + true = WrongKind
true - true = WrongKind
true * true = WrongKind
true / true = WrongKind
true % true = WrongKind
true & true = WrongKind
true | true = WrongKind
true ^ true = WrongKind
true &^ true = WrongKind
true << true = WrongKind
true >> true = WrongKind
true < true = WrongKind
true <= true = WrongKind
true > true = WrongKind
true >= true = WrongKind
'a - 'a = WrongKind
'a * 'a = WrongKind
'a / 'a = WrongKind
'a % 'a = WrongKind
'a & 'a = WrongKind
'a | 'a = WrongKind
'a ^ 'a = WrongKind
'a &^ 'a = WrongKind
'a << 'a = WrongKind
'a >> 'a = WrongKind
'a && 'a = WrongKind
'a || 'a = WrongKind
1 && 0 = WrongKind
1 || 0 = WrongKind
true + 0 = WrongKind
0 + true = WrongKind
'a + -1 = WrongKind
1 + 'a = WrongKind
'a + true = WrongKind
true == 0 = WrongKind
0 == true = WrongKind
'a == -1 = WrongKind
1 == 'a = WrongKind
'a == true = WrongKind
true / 0 = WrongKind
0 / true = WrongKind
'a / -1 = WrongKind
1 / 'a = WrongKind
'a / true = WrongKind
true << 0 = WrongKind
0 << true = WrongKind
'a << -1 = WrongKind
1 << 'a = WrongKind
'a << true = WrongKind
true && 0 = WrongKind
0 && true = WrongKind
'a && -1 = WrongKind
1 && 'a = WrongKind
'a && true = WrongKind";

/// Go specification, "Predeclared identifiers".
const UNIVERSE: &str = "\
bool = Some(Basic(Bool))
byte = Some(Basic(Uint8))
complex64 = Some(Basic(Complex64))
complex128 = Some(Basic(Complex128))
float32 = Some(Basic(Float32))
float64 = Some(Basic(Float64))
int = Some(Basic(Int))
int8 = Some(Basic(Int8))
int16 = Some(Basic(Int16))
int32 = Some(Basic(Int32))
int64 = Some(Basic(Int64))
rune = Some(Basic(Int32))
string = Some(Basic(String))
uint = Some(Basic(Uint))
uint8 = Some(Basic(Uint8))
uint16 = Some(Basic(Uint16))
uint32 = Some(Basic(Uint32))
uint64 = Some(Basic(Uint64))
uintptr = Some(Basic(Uintptr))
error = Some(Error)
true = Some(Truth(true))
false = Some(Truth(false))
iota = Some(Iota)
nil = Some(Nil)
append = Some(Function(Append))
cap = Some(Function(Cap))
close = Some(Function(Close))
complex = Some(Function(Complex))
copy = Some(Function(Copy))
delete = Some(Function(Delete))
imag = Some(Function(Imag))
len = Some(Function(Len))
make = Some(Function(Make))
new = Some(Function(New))
panic = Some(Function(Panic))
print = Some(Function(Print))
println = Some(Function(Println))
real = Some(Function(Real))
recover = Some(Function(Recover))
Bool = None
any = None
int128 = None
main = None
_ = None
inte = None
error1 = None";

fn operator(text: &str) -> Op {
    for (written, op) in &OPERATORS {
        if *written == text {
            return *op;
        }
    }
    Op::Add
}

fn whole(text: &str) -> Result<i128, Fail> {
    if text == "MIN" {
        Ok(i128::MIN)
    } else if text == "MIN+1" {
        Ok(i128::MIN + 1)
    } else if text == "MAX-1" {
        Ok(i128::MAX - 1)
    } else if text == "MAX" {
        Ok(i128::MAX)
    } else {
        Ok(text.parse::<i128>()?)
    }
}

/// The constant that is written so: a truth, a whole number, or a text behind a quote.
pub(crate) fn constant(alloc: Global, text: &str) -> Result<Value, Fail> {
    if text == "true" || text == "false" {
        return Ok(Value::Truth(text == "true"));
    }
    match text.strip_prefix('\'') {
        Some(text) => Ok(Value::Text(Items::from_slice(alloc, text.as_bytes())?)),
        None => Ok(Value::Whole(whole(text)?)),
    }
}

/// Whether an answer is the one that is written so.
fn is_answer(alloc: Global, answer: &Result<Value, ConstFault>, want: &str) -> Result<bool, Fail> {
    match answer {
        Err(fault) => Ok(format!(in alloc; "{fault:?}")?.as_str() == want),
        Ok(value) => Ok(is_same(value, &constant(alloc, want)?)),
    }
}

fn is_same(a: &Value, b: &Value) -> bool {
    match (a, b) {
        (Value::Truth(a), Value::Truth(b)) => *a == *b,
        (Value::Whole(a), Value::Whole(b)) => *a == *b,
        (Value::Text(a), Value::Text(b)) => a.as_slice() == b.as_slice(),
        _ => false,
    }
}

/// Each row is two constants with an operator between them, and what it gives.
fn each_gives(rt: &impl Abort, alloc: Global, table: &str) -> Result<(), Fail> {
    for row in rows(table) {
        let (left, rest) = cut(row, " ");
        let (op, rest) = cut(rest, " ");
        let (right, want) = cut(rest, " = ");
        let left = constant(alloc, left)?;
        let right = constant(alloc, right)?;
        let answer = const_op(alloc, operator(op), &left, &right);
        assert!(rt; is_answer(alloc, &answer, want)?, "{row}");
    }
    Ok(())
}

#[test]
fn operators_give_exact_constants(rt: HostRuntime) -> Result<(), Fail> {
    for table in [WHOLES, AT_THE_ENDS, TEXTS_AND_TRUTHS, WRONG_KINDS] {
        each_gives(&rt, rt.alloc(), table)?;
    }
    constant_law();
    Ok(())
}

#[test]
fn the_universe_is_that_of_go(rt: HostRuntime) -> Result<(), Fail> {
    let alloc = rt.alloc();
    for row in rows(UNIVERSE) {
        let (name, want) = cut(row, " = ");
        assert_eq!(rt;
            format!(in alloc; "{:?}", universe(name))?.as_str(),
            want,
            "{name}"
        );
    }
    universe_law();
    assert!(rt; is_error(&error_symbol(alloc)?));
    assert_eq!(rt; error_sig(alloc)?.methods.len(), 0);
    Ok(())
}
