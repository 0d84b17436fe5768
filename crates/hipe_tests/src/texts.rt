//! Texts of `asm_text`: forms, arguments and entries of calls, and the first refusal.

use asm_text::{Form, Kind, TextRefusal, is_entry, read_args, read_entry, read_forms};
use sqlite_items::Items;
use std::alloc::{AllocError, Global};
use std::process::Abort;
use std::test::Fail;
use term_tree::Term;

/// A text, its reading as `show_forms` writes it, and why.
type Row = (&'static [u8], &'static str, &'static str);

#[cycle(show)]
fn show(term: &Term, out: &mut String) -> Result<(), AllocError> {
    match term {
        Term::Int(n) => write!(out, "{n}"),
        Term::Atom(name) => write!(out, "'{}'", name.as_str()),
        Term::List(items, tail) => {
            out.push('[')?;
            show_all(items.as_slice(), out)?;
            match tail {
                None => {}
                Some(end) => {
                    out.push('|')?;
                    show(end.get(), out)?;
                }
            }
            out.push(']')
        }
        Term::Tuple(items) => {
            out.push('{')?;
            show_all(items.as_slice(), out)?;
            out.push('}')
        }
    }
}

#[cycle(show)]
fn show_all(terms: &[Term], out: &mut String) -> Result<(), AllocError> {
    let mut first = true;
    for term in terms {
        if !first {
            out.push(',')?;
        }
        first = false;
        show(term, out)?;
    }
    Ok(())
}

fn show_refusal(alloc: Global, refusal: TextRefusal) -> Result<String, AllocError> {
    match refusal {
        TextRefusal::Syntax { line } => format!(in alloc; "syntax {line}"),
        TextRefusal::Wide { line } => format!(in alloc; "wide {line}"),
        TextRefusal::Deep { line } => format!(in alloc; "deep {line}"),
        TextRefusal::Memory(e) => Err(e),
        TextRefusal::Kind { line, kind } => match kind {
            Kind::Float => format!(in alloc; "float {line}"),
            Kind::Based => format!(in alloc; "based {line}"),
            Kind::Character => format!(in alloc; "character {line}"),
            Kind::Binary => format!(in alloc; "binary {line}"),
            Kind::Map => format!(in alloc; "map {line}"),
        },
    }
}

/// Each form as its line, a colon and its term, with a space between two.
fn show_forms(alloc: Global, forms: &[Form]) -> Result<String, AllocError> {
    let mut out = String::new(alloc);
    for form in forms {
        if out.len() > 0 {
            out.push(' ')?;
        }
        let line = form.line;
        write!(out, "{line}:")?;
        show(&form.term, &mut out)?;
    }
    Ok(out)
}

fn shown(alloc: Global, text: &[u8]) -> Result<String, AllocError> {
    match read_forms(alloc, text) {
        Ok(forms) => show_forms(alloc, forms.as_slice()),
        Err(refusal) => show_refusal(alloc, refusal),
    }
}

const FORMS: [Row; 45] = [
    (b"", "", "an empty text has no forms"),
    (b" \t\n", "", "separators alone"),
    (b"% only this", "", "a comment to the end of the text"),
    (b"a.", "1:'a'", "the dot at the end of the text"),
    (b"a.%x", "1:'a'", "a dot before a comment"),
    (b"a.\n", "1:'a'", "a dot before a line feed"),
    (b"a .", "1:'a'", "a separator before the dot"),
    (b"a.b.", "syntax 1", "a dot before a letter"),
    (b"a. b.", "1:'a' 1:'b'", "two forms in a line"),
    (b"a.\n\nb.\n", "1:'a' 3:'b'", "lines count from 1"),
    (b"\r\na.\r\nb.", "2:'a' 3:'b'", "two bytes that end a line"),
    (b"a\rb.", "syntax 1", "a carriage return ends no line"),
    (b"\x0b\x0ca.", "1:'a'", "a vertical tab and a form feed"),
    (b".", "syntax 1", "a dot with no term"),
    (b"a..", "syntax 1", "a dot before a dot"),
    (b"a. .", "syntax 1", "two dots"),
    (b"{a,\nb}.", "1:{'a','b'}", "the line of the first token"),
    (b"{a,\n}.", "syntax 2", "a bracket after a comma"),
    (b"{x,0},}.", "syntax 1", "a comma outside brackets"),
    (b"{}.", "1:{}", "no terms in a tuple"),
    (b"[].", "1:[]", "no terms in a list"),
    (b"{,}.", "syntax 1", "a comma with no term before it"),
    (b"{a b}.", "syntax 1", "no comma between terms"),
    (b"[a,].", "syntax 1", "no term after a comma"),
    (b"[a}.", "syntax 1", "the bracket of another kind"),
    (b"{a].", "syntax 1", "the bracket of another kind"),
    (b"a}.", "syntax 1", "a bracket that was not opened"),
    (b"].", "syntax 1", "a bracket that was not opened"),
    (b"[{a,[b]},{c}].", "1:[{'a',['b']},{'c'}]", "nested"),
    (b"[a|b].", "1:['a'|'b']", "a tail"),
    (b"[a|[b]].", "1:['a','b']", "a list as a tail"),
    (b"[a|[b|c]].", "1:['a','b'|'c']", "a tail in a tail"),
    (b"[a|[]].", "1:['a']", "an empty list as a tail"),
    (b"[|a].", "syntax 1", "a tail with no term before it"),
    (b"[a|].", "syntax 1", "no tail after the mark"),
    (b"[a|b,c].", "syntax 1", "a comma after the tail"),
    (b"[a|b|c].", "syntax 1", "two tails"),
    (b"{a|b}.", "syntax 1", "a tail in a tuple"),
    (b"[a|\"bc\"].", "1:['a',98,99]", "a string as a tail"),
    (b"a", "syntax 1", "the end inside a form"),
    (b"a\n", "syntax 1", "a line feed ends its own line"),
    (b"a\n\n", "syntax 2", "the line of the last byte"),
    (b"{a,\nb", "syntax 2", "the line of the last byte"),
    (b"{a,% c", "syntax 1", "a comment at the end inside a form"),
    (b"1\n2.", "syntax 2", "the line of the refused token"),
];

const NUMBERS: [Row; 41] = [
    (b"0.", "1:0", "zero"),
    (b"-0.", "1:0", "zero with a sign"),
    (b"007.", "1:7", "leading zeros"),
    (b"-007.", "1:-7", "leading zeros after a sign"),
    (b"134217727.", "1:134217727", "the greatest integer"),
    (b"134217728.", "wide 1", "one past the greatest integer"),
    (b"-134217728.", "1:-134217728", "the least integer"),
    (b"-134217729.", "wide 1", "one past the least integer"),
    (
        b"000000000000000000000000134217727.",
        "1:134217727",
        "leading zeros of the greatest integer",
    ),
    (
        b"99999999999999999999999999999999.",
        "wide 1",
        "an integer of many digits",
    ),
    (b"a\n99999999999.", "wide 2", "a token before its place"),
    (b"-a.", "syntax 1", "a minus sign before no digit"),
    (b"- 1.", "syntax 1", "a separator after the minus sign"),
    (b"-", "syntax 1", "a minus sign alone"),
    (b"--1.", "syntax 1", "two minus signs"),
    (b"1-2.", "syntax 1", "two integers"),
    (b"+1.", "syntax 1", "no plus sign before an integer"),
    (b"1a.", "syntax 1", "an integer and an atom"),
    (b"1.", "1:1", "digits and the dot of the form"),
    (b"1.5.", "float 1", "a float"),
    (b"-1.5.", "float 1", "a float with a sign"),
    (b"1.5e3.", "float 1", "a float with an exponent"),
    (b"1.e.", "syntax 1", "a dot before a letter is no point"),
    (b"a\n1.5", "float 2", "a float before its place"),
    (b"{a,1.5}.", "float 1", "a float in a strict place"),
    (b"16#ff.", "based 1", "an integer of another base"),
    (b"-16#F.", "based 1", "the same with a sign"),
    (b"1#{.", "based 1", "no mark of a map after digits"),
    (b"99999999999.5.", "float 1", "a wide integer, and a float"),
    (b"99999999999#1.", "based 1", "a wide integer, and a base"),
    (b"$a.", "character 1", "a character"),
    (b"a $b.", "character 1", "a character before its place"),
    (b"<<1>>.", "binary 1", "a binary"),
    (b"<.", "syntax 1", "one bracket of a binary"),
    (b"< <.", "syntax 1", "brackets of a binary apart"),
    (b"#{}.", "map 1", "a map in a strict place"),
    (b"#a{}.", "map 1", "a record"),
    (b"a\n#", "map 2", "the mark of a record at the end"),
    (b"a=>b.", "syntax 1", "the mark of a pair in a strict place"),
    (b"=.", "syntax 1", "an equals sign"),
    (b"].\n16#1", "syntax 1", "the first refusal in the text"),
];

const TEXTS: [Row; 45] = [
    (b"abc_D@9.", "1:'abc_D@9'", "the characters of an atom"),
    (b"A.", "syntax 1", "a capital begins no atom"),
    (b"_a.", "syntax 1", "an underscore begins no atom"),
    (b"a\xc3\xa9.", "syntax 1", "other letters need quotes"),
    (b"'A b'.", "1:'A b'", "quotes"),
    (b"''.", "1:''", "an atom of no characters"),
    (b"'it''s'.", "syntax 1", "adjacent atoms do not join"),
    (b"after. 'case'.", "1:'after' 1:'case'", "reserved words"),
    (b"'\xc3\xa9'.", "1:'é'", "another letter in quotes"),
    (b"'a\nb'.\nc.", "1:'a\nb' 3:'c'", "a line feed in quotes"),
    (b"{\n'a\nb' 1}.", "syntax 3", "the line behind quotes"),
    (b"\"\".", "1:[]", "an empty string"),
    (b"\"ab\".", "1:[97,98]", "code points"),
    (b"\"a\" \"b\".", "1:[97,98]", "adjacent strings join"),
    (b"\"a\"%c\n\"b\".", "1:[97,98]", "a comment between strings"),
    (b"\"a\"\"b\"\"c\".", "1:[97,98,99]", "three strings joined"),
    (b"[\"a\" \"b\",c].", "1:[[97,98],'c']", "strings in a list"),
    (b"[\"a\"|b].", "1:[[97]|'b']", "a string before a tail"),
    (b"a \"b\".", "syntax 1", "a string after an atom"),
    (b"\"a\" b.", "syntax 1", "an atom after a string"),
    (b"[\"a\"] \"b\".", "syntax 1", "a string after a list"),
    (
        b"\"\xe2\x82\xac\xf0\x9f\x98\x80\".",
        "1:[8364,128512]",
        "characters of three and four bytes",
    ),
    (b"\"it's\" .", "1:[105,116,39,115]", "an atom's quote"),
    (b"'\"'.", "1:'\"'", "the other quote in an atom"),
    (
        b"\"% no comment\".",
        "1:[37,32,110,111,32,99,111,109,109,101,110,116]",
        "no comment in a string",
    ),
    (b"\n'abc\n\n", "syntax 2", "unended: the line of its quote"),
    (b"\n\"abc\n.", "syntax 2", "unended: the line of its quote"),
    (b"{a,\n\"b\n\n\"\n\"c", "syntax 5", "unended, after another"),
    (b"\"a\\", "syntax 1", "a backslash at the end"),
    (b"'\\'.", "syntax 1", "an escaped quote ends nothing"),
    (b"'\xff'.", "syntax 1", "no UTF-8 in an atom"),
    (b"\"\xc3\".", "syntax 1", "a character cut short"),
    (b"\"\xed\xa0\x80\".", "syntax 1", "a surrogate in UTF-8"),
    (b"\"\xc0\x80\".", "syntax 1", "too many bytes"),
    (b"\"\xe0\x80\x80\".", "syntax 1", "too many bytes"),
    (b"\"\xf4\x90\x80\x80\".", "syntax 1", "past the last code"),
    (b"\"\x80\".", "syntax 1", "a continuation byte alone"),
    (b"\xff", "syntax 1", "no UTF-8 alone"),
    (b"a.\n\xc3\xa9", "syntax 2", "another character alone"),
    (b"999999999\xff", "wide 1", "the first token's refusal"),
    (b"%\xff\na.", "syntax 1", "no UTF-8 in a comment"),
    (b"a.\n% \xc3\nb.", "syntax 2", "the line of such a comment"),
    (b"% \xc3\xa9\na.", "2:'a'", "another character in a comment"),
    (b"a\xff.", "syntax 1", "no UTF-8 after an atom"),
    (b"a.\n\"b\n\xff\".", "syntax 2", "the line of its quote"),
];

const ESCAPES: [Row; 35] = [
    (b"\"\\b\\d\\e\\f\".", "1:[8,127,27,12]", "named escapes"),
    (b"\"\\n\\r\\s\\t\\v\".", "1:[10,13,32,9,11]", "more escapes"),
    (b"\"\\q\\\"\\'\\\\\".", "1:[113,34,39,92]", "other escapes"),
    (b"'\\''.", "1:'''", "a quote in an atom"),
    (b"\"\\\xc3\xa9\".", "1:[233]", "a character of two bytes"),
    (b"\"\\\xff\".", "syntax 1", "no UTF-8 after a backslash"),
    (b"\"\\\n\".\na.", "1:[10] 3:'a'", "an escaped line feed"),
    (b"\"\\x41\\xfF\".", "1:[65,255]", "two hexadecimal digits"),
    (b"\"\\x414\".", "1:[65,52]", "no third hexadecimal digit"),
    (b"\"\\x4\".", "1:[120,52]", "one hexadecimal digit"),
    (b"\"\\xg\".", "1:[120,103]", "no hexadecimal digit"),
    (b"\"\\x\".", "1:[120]", "nothing after x"),
    (b"\"\\x{1F600}\".", "1:[128512]", "digits in braces"),
    (b"\"\\x{000000000000041}\".", "1:[65]", "zeros in braces"),
    (b"\"\\x{}\".", "1:[120,123,125]", "no digit in braces"),
    (b"\"\\x{41\".", "1:[120,123,52,49]", "no closing brace"),
    (b"\"\\x{4g}\".", "1:[120,123,52,103,125]", "no digit there"),
    (
        b"\"\\x{D7FF}\\x{E000}\".",
        "1:[55295,57344]",
        "beside the surrogates",
    ),
    (b"\"\\x{D800}\".", "syntax 1", "the first surrogate"),
    (b"'\\x{DFFF}'.", "syntax 1", "the last surrogate"),
    (b"\"\\x{10FFFF}\".", "1:[1114111]", "the last code point"),
    (b"\"\\x{110000}\".", "syntax 1", "past the last code point"),
    (
        b"a.\n\"\n\\x{FFFFFFFFFFFFFFFFFFFFFFFF}\".",
        "syntax 2",
        "far past the last code point",
    ),
    (b"\"\\0\\7\".", "1:[0,7]", "one octal digit"),
    (b"\"\\12\\128\".", "1:[10,10,56]", "two octal digits"),
    (b"\"\\101\\1011\".", "1:[65,65,49]", "three octal digits"),
    (b"\"\\777\".", "1:[511]", "the greatest octal code"),
    (b"\"\\8\".", "1:[56]", "no octal digit"),
    (b"\"\\^@\\^A\\^_\".", "1:[0,1,31]", "control characters"),
    (b"\"\\^a\\^z\".", "1:[1,26]", "controls by small letters"),
    (b"\"\\^1\".", "1:[94,49]", "no letter after the caret"),
    (
        b"\"\\^?\\^`\\^{\".",
        "1:[94,63,94,96,94,123]",
        "beside the control characters",
    ),
    (b"\"\\^\\n\".", "1:[28,110]", "a backslash after a caret"),
    (b"\"\\^\".", "1:[94]", "nothing after the caret"),
    (b"'\\x25\\101\\^A'.", "1:'%A\u{1}'", "escapes in an atom"),
];

const LOOSE: [Row; 37] = [
    (b"{'%',1.5}.", "1:{'%',0}", "a float"),
    (
        b"{'%',-1.5e-3,1.5E+10,1.5e3}.",
        "1:{'%',0,0,0}",
        "floats with exponents",
    ),
    (
        b"{'%',99999999999,-134217729,-1}.",
        "1:{'%',0,0,-1}",
        "wide integers",
    ),
    (b"{'%',#{}}.", "1:{'%',0}", "an empty map"),
    (b"{'%',#{a=>1,b=>[2]}}.", "1:{'%',0}", "a map of two pairs"),
    (b"{'%',#{#{}=>#{\"a\" \"b\"=>{}}}}.", "1:{'%',0}", "nested"),
    (
        b"{'%',{x,1.5},[a|#{}]}.",
        "1:{'%',{'x',0},['a'|0]}",
        "all terms inside",
    ),
    (b"{'%'\n,\n1.5}.", "1:{'%',0}", "separators between tokens"),
    (b"{'\\x25',1.5}.", "1:{'%',0}", "the atom by an escape"),
    (b"{'%',a} 1.5.", "syntax 1", "loose to the dot"),
    (b"{'%',1.5}. 1.5.", "float 1", "not past the dot"),
    (b"{'%'}.", "1:{'%'}", "no comma"),
    (b"['%',1.5].", "float 1", "a list"),
    (b"{\"%\",1.5}.", "float 1", "a string"),
    (b"{'%%',1.5}.", "float 1", "another atom"),
    (b"{a,'%',1.5}.", "float 1", "not the first element"),
    (b"{{'%',1.5}}.", "float 1", "not the first tuple"),
    (b"{'%',#{a=>1,}}.", "syntax 1", "a comma after all pairs"),
    (b"{'%',#{a}}.", "syntax 1", "a key with no value"),
    (b"{'%',#{a,b}}.", "syntax 1", "a comma after a key"),
    (b"{'%',#{a=>}}.", "syntax 1", "no value after the mark"),
    (b"{'%',#{=>a}}.", "syntax 1", "no key before the mark"),
    (b"{'%',#{a=>b=>c}}.", "syntax 1", "two marks"),
    (b"{'%',#{a=>b]}.", "syntax 1", "the bracket of another kind"),
    (b"{'%',a=>1}.", "syntax 1", "a pair outside a map"),
    (b"{'%',#{a=>1}.", "syntax 1", "the form ends inside a map"),
    (b"{'%',16#1}.", "based 1", "an integer of another base"),
    (b"{'%',1#{}}.", "based 1", "digits before a map"),
    (b"{'%',\n$a}.", "character 2", "a character"),
    (b"{'%',<<>>}.", "binary 1", "a binary"),
    (b"{'%',#a{}}.", "map 1", "a record"),
    (b"{'%',# {}}.", "map 1", "a separator inside the mark"),
    (b"{'%',1.5#3}.", "map 1", "a float and a record"),
    (b"{'%',1.5e}.", "syntax 1", "a float and an atom"),
    (b"{'%',1.5e+}.", "syntax 1", "no digit after the sign"),
    (b"{'%',1.e}.", "syntax 1", "no digit after the point"),
    (b"{'%', = >}.", "syntax 1", "the mark of a pair cut"),
];

const ARGUMENTS: [Row; 23] = [
    (b"[]", "[]", "no arguments"),
    (b"[1,a]", "[1,'a']", "two arguments"),
    (b" [1] % c", "[1]", "separators and a comment"),
    (b"[[1|2]]", "[[1|2]]", "a tail inside"),
    (b"[\"a\" \"b\"]", "[[97,98]]", "adjacent strings"),
    (b"", "syntax 1", "an empty text"),
    (b" \n", "syntax 1", "separators alone"),
    (b"\n\n ", "syntax 3", "the line of the last byte"),
    (b"[1,", "syntax 1", "the end inside the list"),
    (b"1", "syntax 1", "an integer"),
    (b"\"ab\"", "syntax 1", "a string"),
    (b"{a}", "syntax 1", "a tuple"),
    (b"[1].", "syntax 1", "a dot"),
    (b"[1]\na", "syntax 2", "a term after the list"),
    (b"[1] [2]", "syntax 1", "two lists"),
    (b"[1] \"a\"", "syntax 1", "a string after the list"),
    (b"[1\n|2]", "syntax 2", "a tail"),
    (b"[1|[2]]", "syntax 1", "a list as a tail"),
    (b"[1.5]", "float 1", "a float"),
    (b"[99999999999]", "wide 1", "a wide integer"),
    (b"[{'%',1.5}]", "float 1", "no loose places"),
    (b"{'%',1.5}", "syntax 1", "the first refusal in the text"),
    (b"[1]\n16#1", "based 2", "a token before its place"),
];

/// Whether the text is read so.
fn check_row(rt: &impl Abort, alloc: Global, row: &Row) -> Result<(), AllocError> {
    let (text, want, why) = *row;
    let got = shown(alloc, text)?;
    assert_eq!(rt; got.as_str(), want, "{why}");
    Ok(())
}

#[test]
fn forms_and_brackets(rt: HostRuntime) -> Result<(), Fail> {
    for row in FORMS.iter() {
        check_row(&rt, rt.alloc(), row)?;
    }
    Ok(())
}

#[test]
fn numbers(rt: HostRuntime) -> Result<(), Fail> {
    for row in NUMBERS.iter() {
        check_row(&rt, rt.alloc(), row)?;
    }
    Ok(())
}

#[test]
fn atoms_and_strings(rt: HostRuntime) -> Result<(), Fail> {
    for row in TEXTS.iter() {
        check_row(&rt, rt.alloc(), row)?;
    }
    Ok(())
}

#[test]
fn escapes(rt: HostRuntime) -> Result<(), Fail> {
    for row in ESCAPES.iter() {
        check_row(&rt, rt.alloc(), row)?;
    }
    Ok(())
}

#[test]
fn loose_places(rt: HostRuntime) -> Result<(), Fail> {
    for row in LOOSE.iter() {
        check_row(&rt, rt.alloc(), row)?;
    }
    Ok(())
}

fn shown_arguments(alloc: Global, text: &[u8]) -> Result<String, AllocError> {
    match read_args(alloc, text) {
        Ok(items) => {
            let mut out = String::new(alloc);
            show(&Term::List(items, None), &mut out)?;
            Ok(out)
        }
        Err(refusal) => show_refusal(alloc, refusal),
    }
}

#[test]
fn arguments(rt: HostRuntime) -> Result<(), Fail> {
    for (text, want, why) in ARGUMENTS.iter() {
        let got = shown_arguments(rt.alloc(), text)?;
        assert_eq!(rt; got.as_str(), *want, "{why}");
    }
    Ok(())
}

/// A text of `count` pieces.
fn repeated(
    alloc: Global,
    before: &str,
    piece: &str,
    count: u32,
    after: &str,
) -> Result<String, AllocError> {
    let mut text = String::from_str(alloc, before)?;
    for _ in 0..count {
        text.push_str(piece)?;
    }
    text.push_str(after)?;
    Ok(text)
}

/// Whether that text is read so, by what `shown` gives or by its length in bytes where it is long.
fn check_repeated(
    rt: &impl Abort,
    alloc: Global,
    parts: (&str, &str, u32, &str),
    want: &str,
    size: usize,
) -> Result<(), AllocError> {
    let (before, piece, count, after) = parts;
    let text = repeated(alloc, before, piece, count, after)?;
    let got = shown(alloc, text.as_str().as_bytes())?;
    if size == 0 {
        assert_eq!(rt; got.as_str(), want, "{count} times {piece}");
    } else {
        assert_eq!(rt; got.len(), size, "{count} times {piece}");
    }
    Ok(())
}

#[test]
fn long_texts(rt: HostRuntime) -> Result<(), Fail> {
    let alloc = rt.alloc();
    // An atom has 255 characters, of any size in bytes.
    check_repeated(&rt, alloc, ("", "a", 255, "."), "", 259)?;
    check_repeated(&rt, alloc, ("", "a", 256, "."), "syntax 1", 0)?;
    check_repeated(&rt, alloc, ("'", "\u{e9}", 255, "'."), "", 514)?;
    check_repeated(&rt, alloc, ("a.\n'\n", "\u{e9}", 255, "'."), "syntax 2", 0)?;
    check_repeated(&rt, alloc, ("'", "\\x{10FFFF}", 255, "'."), "", 1024)?;
    // 200 brackets may be open.
    check_repeated(&rt, alloc, ("[[],", "[", 199, "1"), "syntax 1", 0)?;
    check_repeated(&rt, alloc, ("[[],\n", "{", 200, "1"), "deep 2", 0)?;
    check_repeated(&rt, alloc, ("", "[", 200, "1 ["), "deep 1", 0)?;
    check_repeated(&rt, alloc, ("{'%',", "#{a=>", 199, "1"), "syntax 1", 0)?;
    check_repeated(&rt, alloc, ("{'%',", "#{a=>", 200, "1"), "deep 1", 0)?;
    check_repeated(&rt, alloc, ("{'%',", "#{", 200, "1"), "deep 1", 0)?;
    check_repeated(&rt, alloc, ("", "[]. ", 300, ""), "", 1499)?;
    Ok(())
}

/// A long list, and a long string of escapes.
#[test]
fn longest_texts(rt: HostRuntime) -> Result<(), Fail> {
    let alloc = rt.alloc();
    check_repeated(&rt, alloc, ("[", "1,", 499_999, "1]."), "", 1_000_003)?;
    check_repeated(&rt, alloc, ("\"", "\\n", 2_097_150, "\"."), "", 6_291_453)?;
    Ok(())
}

#[test]
fn deep_terms(rt: HostRuntime) -> Result<(), Fail> {
    let alloc = rt.alloc();
    let mut text = repeated(alloc, "", "[", 200, "")?;
    let end = repeated(alloc, "", "]", 200, "")?;
    text.push_str(end.as_str())?;
    let got = shown_arguments(alloc, text.as_str().as_bytes())?;
    assert_eq!(rt; got.as_str(), text.as_str());
    let text = repeated(alloc, "", "[", 201, "")?;
    let got = shown_arguments(alloc, text.as_str().as_bytes())?;
    assert_eq!(rt; got.as_str(), "deep 1");
    Ok(())
}

/// A word, its two names with a space between them, or nothing where it is no entry, and why.
const ENTRIES: [Row; 22] = [
    (b"one:f", "one f", "two names without quotes"),
    (b"'a b':'c\\'d'", "a b c'd", "two names in quotes"),
    (b"'':x", " x", "a name of no characters"),
    (b"a:''", "a ", "a function's name of no characters"),
    (b"a@B_1:'A'", "a@B_1 A", "one name in quotes"),
    (b"'a:b':c", "a:b c", "a colon between quotes"),
    (
        b"'\\x{10FFFF}':'\xc3\xa9'",
        "\u{10ffff} \u{e9}",
        "characters of four bytes and of two",
    ),
    (b"", "", "no names"),
    (b"a", "", "no colon"),
    (b"a:", "", "no name of a function"),
    (b":f", "", "no name of a module"),
    (b"a:b:c", "", "three names"),
    (b"a: b", "", "a separator behind the colon"),
    (b"a :b", "", "a separator before the colon"),
    (b"a:b ", "", "a separator at the end"),
    (b" a:b", "", "a separator at the front"),
    (b"A:f", "", "a variable"),
    (b"1:f", "", "an integer"),
    (b"\"a\":f", "", "a string"),
    (b"'a", "", "a quote that does not end"),
    (b"a:'b", "", "a quote that does not end behind the colon"),
    (b"'\xff':f", "", "a byte that is no character"),
];

/// The two names of a word, with a space between them; nothing where it is no entry.
fn shown_entry(
    rt: &impl Abort,
    alloc: Global,
    word: &[u8],
    why: &str,
) -> Result<String, AllocError> {
    let names = read_entry(alloc, word)?;
    assert_eq!(rt; is_entry(word), names.is_some(), "{why}");
    match names {
        None => Ok(String::new(alloc)),
        Some((owner, function)) => { format!(in alloc; "{} {}", owner.as_str(), function.as_str()) }
    }
}

#[test]
fn entries(rt: HostRuntime) -> Result<(), Fail> {
    let alloc = rt.alloc();
    for row in ENTRIES.iter() {
        let (word, want, why) = *row;
        let got = shown_entry(&rt, alloc, word, why)?;
        assert_eq!(rt; got.as_str(), want, "{why}");
    }
    Ok(())
}

/// A word with a name of that many characters, and the size in bytes of its two names with a space
/// between them, or 0 where it is no entry.
fn check_long_entry(
    rt: &impl Abort,
    alloc: Global,
    parts: (&str, &str, u32, &str),
    size: usize,
) -> Result<(), AllocError> {
    let (before, piece, count, after) = parts;
    let word = repeated(alloc, before, piece, count, after)?;
    let got = shown_entry(rt, alloc, word.as_str().as_bytes(), piece)?;
    assert_eq!(rt; got.len(), size, "{count} times {piece}");
    Ok(())
}

/// A name has 255 characters, of any size in bytes.
#[test]
fn long_entries(rt: HostRuntime) -> Result<(), Fail> {
    let alloc = rt.alloc();
    check_long_entry(&rt, alloc, ("", "a", 255, ":f"), 257)?;
    check_long_entry(&rt, alloc, ("", "a", 256, ":f"), 0)?;
    check_long_entry(&rt, alloc, ("'", "\u{e9}", 255, "':f"), 512)?;
    check_long_entry(&rt, alloc, ("'", "\u{e9}", 256, "':f"), 0)?;
    check_long_entry(&rt, alloc, ("f:'", "\u{20ac}", 255, "'"), 767)?;
    check_long_entry(&rt, alloc, ("f:'", "\u{20ac}", 256, "'"), 0)?;
    check_long_entry(&rt, alloc, ("f:'", "\\x{10FFFF}", 255, "'"), 1022)?;
    check_long_entry(&rt, alloc, ("f:'", "\\x{10FFFF}", 256, "'"), 0)?;
    Ok(())
}
