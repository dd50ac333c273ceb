use gs_numbers::number::{Number, number_at};
use std::alloc::Global;
use std::test::Fail;

/// Bytes, and the longest number at their front: its value, `wide`, `float` or `imaginary`, and its length. Go
/// specification, "Integer literals", "Floating-point literals" and "Imaginary literals".
const NUMBERS: &str = "\
0|0 1
7 |7 1
42|42 2
4_2|42 3
0600|384 4
0_600|384 5
0o600|384 5
0O600|384 5
0xBadFace|195951310 9
0xBad_Face|195951310 10
0x_67_7a_2f_cc_40_c6|113774485586118 20
0XfF|255 4
0b1011|11 6
0B_10|2 5
170141183460469231731687303715884105727|170141183460469231731687303715884105727 39
170_141183_460469_231731_687303_715884_105727|170141183460469231731687303715884105727 45
0x7fffffffffffffffffffffffffffffff|170141183460469231731687303715884105727 34
42_|42 2
4__2|4 1
0_xBadFace|0 1
0x|0 1
0x_|0 1
0b2|0 1
0b12|1 3
0o8|0 1
08|0 1
078|7 2
0xG|0 1
0xfg|15 3
0__7|0 1
00|0 2
0x15e-2|350 5
0x.p1|0 1
1p-2|1 1
0x1.5e-2|1 3
1_.5|1 1
0x1.8|1 3
0x1p|1 3
0x1pf|1 3
0x_.8p0|0 1
0x1_p0|1 3
1e|1 1
1e+|1 1
1e+-1|1 1
0b1e1|1 3
0b1.5|1 3
0o1.5|1 3
1_i|1 1
1e+i|1 1
170141183460469231731687303715884105728|wide 39
0x80000000000000000000000000000000|wide 34
0.|float 2
72.40|float 5
072.40|float 6
2.71828|float 7
1.e+0|float 5
6.67428e-11|float 11
1E6|float 3
.25|float 3
.12345E+5|float 9
1_5.|float 4
0.15e+0_2|float 9
0x1p-2|float 6
0x2.p10|float 7
0x1.Fp+0|float 8
0X.8p-0|float 7
0X_1FFFP-16|float 11
1._5|float 2
1.5_e1|float 3
1.5e_1|float 3
1.5e1_|float 5
08.5|float 4
08e1|float 4
1e3|float 3
0e0|float 3
1..2|float 2
1.2.3|float 3
.5|float 2
.5e|float 2
0i|imaginary 2
0123i|imaginary 5
08i|imaginary 3
0o123i|imaginary 6
0xabci|imaginary 6
0b1i|imaginary 4
2.71828i|imaginary 8
1.e+0i|imaginary 6
.25i|imaginary 4
0x1p-2i|imaginary 7
1ii|imaginary 2
_42|none
.|none
..5|none
.e1|none
._5|none
e1|none
|none
i|none
x|none
-1|none";

fn shown(alloc: Global, answer: Option<(Number, usize)>) -> Result<String, Fail> {
    Ok(match answer {
        Some((Number::Integer(Some(value)), length)) => format!(in alloc; "{value} {length}")?,
        Some((Number::Integer(None), length)) => format!(in alloc; "wide {length}")?,
        Some((Number::Float, length)) => format!(in alloc; "float {length}")?,
        Some((Number::Imaginary, length)) => format!(in alloc; "imaginary {length}")?,
        None => format!(in alloc; "none")?,
    })
}

#[test]
fn the_longest_number_counts(rt: HostRuntime) -> Result<(), Fail> {
    for row in NUMBERS.lines() {
        let (text, want) = match row.split_once('|') {
            Some((text, want)) => (text, want),
            None => (row, ""),
        };
        let answer = shown(rt.alloc(), number_at(text.as_bytes()))?;
        assert_eq!(rt; answer.as_str(), want, "{text}");
    }
    Ok(())
}
