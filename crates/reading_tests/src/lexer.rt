//! Texts and their tokens, worked out by hand.

use pepa_lexer::{Kind, LexFault, Place, Sign, Token, tokens};
use std::alloc::Global;
use std::process::Abort;
use std::test::Fail;

fn at(line: u32, column: u32) -> Place {
    Place { line, column }
}

fn token(kind: Kind, place: Place, from: usize, to: usize) -> Token {
    Token {
        kind,
        place,
        from,
        to,
    }
}

fn sign(sign: Sign, place: Place, from: usize, to: usize) -> Token {
    token(Kind::Sign(sign), place, from, to)
}

fn number(digits: u128, scale: u32, place: Place, from: usize, to: usize) -> Token {
    token(Kind::Number { digits, scale }, place, from, to)
}

fn has_tokens(rt: &impl Abort, alloc: Global, text: &[u8], want: &[Token]) -> Result<(), Fail> {
    assert!(rt; text.len() <= 1 << 20);
    let found = tokens(alloc, text)?;
    assert_eq!(rt; found.as_slice(), want);
    Ok(())
}

fn has_fault(rt: &impl Abort, alloc: Global, text: &[u8], want: LexFault) {
    assert!(rt; text.len() <= 1 << 20);
    let found = tokens(alloc, text).err();
    assert_eq!(rt; found, Some(want));
}

#[test]
fn a_line_of_a_model(rt: HostRuntime) -> Result<(), Fail> {
    let want = [
        token(Kind::Capital, at(1, 1), 0, 1),
        sign(Sign::Equals, at(1, 3), 2, 3),
        sign(Sign::Opening, at(1, 5), 4, 5),
        token(Kind::Small, at(1, 6), 5, 6),
        sign(Sign::Comma, at(1, 7), 6, 7),
        number(50, 2, at(1, 9), 8, 12),
        sign(Sign::Closing, at(1, 13), 12, 13),
        sign(Sign::Dot, at(1, 14), 13, 14),
        token(Kind::Capital, at(1, 15), 14, 15),
        sign(Sign::Semicolon, at(1, 16), 15, 16),
        token(Kind::End, at(2, 1), 17, 17),
    ];
    has_tokens(&rt, rt.alloc(), b"P = (a, 0.50).P;\n", &want)
}

#[test]
fn the_longest_sign(rt: HostRuntime) -> Result<(), Fail> {
    let want = [
        sign(Sign::LessOrEqual, at(1, 1), 0, 2),
        sign(Sign::Equals, at(1, 3), 2, 3),
        sign(Sign::DoubleColon, at(1, 5), 4, 6),
        sign(Sign::Colon, at(1, 7), 6, 7),
        sign(Sign::Or, at(1, 9), 8, 10),
        sign(Sign::Bar, at(1, 11), 10, 11),
        sign(Sign::EqualTo, at(1, 13), 12, 14),
        sign(Sign::NotEqualTo, at(1, 16), 15, 17),
        sign(Sign::GreaterOrEqual, at(1, 19), 18, 20),
        sign(Sign::And, at(1, 22), 21, 23),
        token(Kind::End, at(1, 24), 23, 23),
    ];
    has_tokens(&rt, rt.alloc(), b"<== ::: ||| == != >= &&", &want)
}

#[test]
fn signs_of_one_byte(rt: HostRuntime) -> Result<(), Fail> {
    let want = [
        sign(Sign::Plus, at(1, 1), 0, 1),
        sign(Sign::Minus, at(1, 2), 1, 2),
        sign(Sign::Star, at(1, 3), 2, 3),
        sign(Sign::Less, at(1, 4), 3, 4),
        sign(Sign::Greater, at(1, 5), 4, 5),
        sign(Sign::Not, at(1, 6), 5, 6),
        sign(Sign::OpeningBrace, at(1, 7), 6, 7),
        sign(Sign::ClosingBrace, at(1, 8), 7, 8),
        sign(Sign::OpeningBracket, at(1, 9), 8, 9),
        sign(Sign::ClosingBracket, at(1, 10), 9, 10),
        sign(Sign::Question, at(1, 11), 10, 11),
        sign(Sign::Slash, at(1, 12), 11, 12),
        token(Kind::End, at(1, 13), 12, 12),
    ];
    has_tokens(&rt, rt.alloc(), b"+-*<>!{}[]?/", &want)
}

#[test]
fn comments(rt: HostRuntime) -> Result<(), Fail> {
    let alloc = rt.alloc();
    let want = [
        token(Kind::Small, at(1, 1), 0, 1),
        token(Kind::Small, at(3, 8), 19, 20),
        token(Kind::End, at(3, 9), 20, 20),
    ];
    has_tokens(&rt, alloc, b"a // b\n/* c\n* /**/ d", &want)?;
    has_tokens(&rt, alloc, b"", &[token(Kind::End, at(1, 1), 0, 0)])?;
    has_tokens(&rt, alloc, b"/**/", &[token(Kind::End, at(1, 5), 4, 4)])?;
    has_tokens(&rt, alloc, b"/***/", &[token(Kind::End, at(1, 6), 5, 5)])?;
    has_tokens(&rt, alloc, b"//", &[token(Kind::End, at(1, 3), 2, 2)])?;
    has_tokens(
        &rt,
        alloc,
        b"//\xff\x00",
        &[token(Kind::End, at(1, 5), 4, 4)],
    )?;
    let want = [
        token(Kind::Capital, at(2, 2), 4, 5),
        token(Kind::End, at(2, 3), 5, 5),
    ];
    has_tokens(&rt, alloc, b"\t\r\n X", &want)
}

#[test]
fn numbers_and_names_at_their_limits(rt: HostRuntime) -> Result<(), Fail> {
    let alloc = rt.alloc();
    let want = [
        number(5, 1, at(1, 1), 0, 3),
        sign(Sign::Dot, at(1, 4), 3, 4),
        token(Kind::End, at(1, 5), 4, 4),
    ];
    has_tokens(&rt, alloc, b"0.5.", &want)?;
    let want = [
        number(12345678901234567890123456789, 0, at(1, 1), 0, 30),
        token(Kind::End, at(1, 31), 30, 30),
    ];
    has_tokens(&rt, alloc, b"012345678901234567890123456789", &want)?;
    let want = [
        number(999999999999999999999999999999, 29, at(1, 1), 0, 31),
        token(Kind::End, at(1, 32), 31, 31),
    ];
    has_tokens(&rt, alloc, b"9.99999999999999999999999999999", &want)?;
    let want = [
        token(Kind::Small, at(1, 1), 0, 64),
        token(Kind::End, at(1, 65), 64, 64),
    ];
    has_tokens(
        &rt,
        alloc,
        b"a_23456789012345678901234567890123456789012345678901234567890123",
        &want,
    )
}

#[test]
fn faults(rt: HostRuntime) {
    let alloc = rt.alloc();
    let table = [
        (b"_a".as_slice(), LexFault::BadByte(at(1, 1))),
        (b"a &".as_slice(), LexFault::BadByte(at(1, 3))),
        (b"\n %".as_slice(), LexFault::BadByte(at(2, 2))),
        (b"\x00".as_slice(), LexFault::BadByte(at(1, 1))),
        (b"\x7f".as_slice(), LexFault::BadByte(at(1, 1))),
        (b"\xff".as_slice(), LexFault::BadByte(at(1, 1))),
        (b"1.".as_slice(), LexFault::BadNumber(at(1, 1))),
        (b"a 1.x %".as_slice(), LexFault::BadNumber(at(1, 3))),
        (b"1a".as_slice(), LexFault::BadNumber(at(1, 1))),
        (b"1_".as_slice(), LexFault::BadNumber(at(1, 1))),
        (b"0.5a".as_slice(), LexFault::BadNumber(at(1, 1))),
        (
            b"0123456789012345678901234567890".as_slice(),
            LexFault::BadNumber(at(1, 1)),
        ),
        (
            b"0.123456789012345678901234567890".as_slice(),
            LexFault::BadNumber(at(1, 1)),
        ),
        (
            b"a_234567890123456789012345678901234567890123456789012345678901234".as_slice(),
            LexFault::LongName(at(1, 1)),
        ),
        (b"/*".as_slice(), LexFault::OpenComment(at(1, 1))),
        (b"\n/*/".as_slice(), LexFault::OpenComment(at(2, 1))),
        (b"/* %\n".as_slice(), LexFault::OpenComment(at(1, 1))),
    ];
    for (text, fault) in table {
        has_fault(&rt, alloc, text, fault);
    }
}
