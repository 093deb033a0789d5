// Prints conditions.
ghost use Rattle.std.specs.Prelude.{◌≡◌, [], ◌∷◌, IfOk, OnOk, codes, if◌then◌else◌};
ghost use Rattle.std.specs.Str.{chars, encode_utf8_all};
ghost use Rattle.rule_conditions.specs.Print.{doubled, quoted, atom_text, product_text, followed, sign_text, terms_after, terms_text, first_text, cmp_text, null_text, like_text, sum_text, printed, print};
ghost use Rattle.rule_text.specs.Printing.{opening_in_any, closing_in_any, opening_in_all, closing_in_all, comparison_text, null_test_text, like_test_text, Appends};

use payload_records::{List, Text};
use rule_conditions::{Atom, Cmp, Cond, Product, Sum, Term};
use std::alloc::{AllocError, Global};

fn put_character(out: &mut String, character: char) -> Result<(), AllocError>
    ensures { OnOk result (Appends out.old out.new (encode_utf8_all (doubled (character ∷ [])))) }
{
    if character == '\'' {
        out.push_str("''")
    } else {
        out.push(character)
    }
}

fn put_doubled(out: &mut String, text: &str) -> Result<(), AllocError>
    ensures { OnOk result (Appends out.old out.new (encode_utf8_all (doubled (chars text.now)))) }
{
    for character in text.chars() {
        put_character(out, character)?;
    }
    Ok(())
}

fn put_quoted(out: &mut String, text: &Text) -> Result<(), AllocError>
    ensures { OnOk result (Appends out.old out.new (quoted text.now)) }
{
    out.push_str("'")?;
    put_doubled(out, text.as_str())?;
    out.push_str("'")
}

fn put_atom(out: &mut String, atom: &Atom) -> Result<(), AllocError>
    ensures { OnOk result (Appends out.old out.new (atom_text atom.now)) }
{
    match atom {
        Atom::Number(number) => {
            let number = *number;
            write!(out, "{number}")
        }
        Atom::Text(text) => put_quoted(out, text),
        Atom::Null => out.push_str("NULL"),
        Atom::Priority => out.push_str("tab.priority"),
        Atom::Corr => out.push_str("tab.corrid"),
        Atom::Cell(name) => {
            out.push_str("tab.user_data.")?;
            out.push_str(name.as_str())
        }
        Atom::Prop(name) => {
            out.push_str("tab.user_prop.")?;
            out.push_str(name.as_str())
        }
    }
}

fn put_product(out: &mut String, product: &Product) -> Result<(), AllocError>
    ensures { OnOk result (Appends out.old out.new (product_text product.now.atoms)) }
{
    let mut before = "";
    for atom in &product.atoms {
        out.push_str(before)?;
        put_atom(out, atom)?;
        before = " * ";
    }
    Ok(())
}

fn sign_text(minus: bool) -> &'static str
    ensures { result.now ≡ sign_text minus }
{
    if minus { " - " } else { " + " }
}

fn first_sign_text(minus: bool) -> &'static str
    ensures { result.now ≡ (if minus then codes "0 - " else []) }
{
    if minus { "0 - " } else { "" }
}

fn put_first(out: &mut String, term: &Term) -> Result<(), AllocError>
    ensures { OnOk result (Appends out.old out.new (first_text term.now)) }
{
    out.push_str(first_sign_text(term.minus))?;
    put_product(out, &term.product)
}

fn put_sum(out: &mut String, sum: &Sum) -> Result<(), AllocError>
    ensures { OnOk result (Appends out.old out.new (sum_text sum.now)) }
{
    let mut terms = sum.terms.iter();
    let Some(first) = terms.next() else {
        return Ok(());
    };
    put_first(out, first)?;
    for term in terms {
        out.push_str(sign_text(term.minus))?;
        put_product(out, &term.product)?;
    }
    Ok(())
}

fn cmp_text(how: Cmp) -> &'static str
    ensures { result.now ≡ cmp_text how }
{
    match how {
        Cmp::Equal => " = ",
        Cmp::Unequal => " <> ",
        Cmp::Less => " < ",
        Cmp::LessEqual => " <= ",
        Cmp::Greater => " > ",
        Cmp::GreaterEqual => " >= ",
    }
}

fn null_text(not_null: bool) -> &'static str
    ensures { result.now ≡ null_text not_null }
{
    if not_null { " IS NOT NULL" } else { " IS NULL" }
}

fn like_text(not_like: bool) -> &'static str
    ensures { result.now ≡ like_text not_like }
{
    if not_like { " NOT LIKE " } else { " LIKE " }
}

fn put_comparison(out: &mut String, left: &Sum, how: Cmp, right: &Sum) -> Result<(), AllocError>
    ensures { OnOk result (Appends out.old out.new (comparison_text left.now how right.now)) }
{
    put_sum(out, left)?;
    out.push_str(cmp_text(how))?;
    put_sum(out, right)
}

fn put_null_test(out: &mut String, sum: &Sum, not_null: bool) -> Result<(), AllocError>
    ensures { OnOk result (Appends out.old out.new (null_test_text sum.now not_null)) }
{
    put_sum(out, sum)?;
    out.push_str(null_text(not_null))
}

fn put_like_test(
    out: &mut String,
    sum: &Sum,
    pattern: &Text,
    not_like: bool,
) -> Result<(), AllocError>
    ensures { OnOk result (Appends out.old out.new (like_test_text sum.now not_like pattern.now)) }
{
    put_sum(out, sum)?;
    out.push_str(like_text(not_like))?;
    put_quoted(out, pattern)
}

/// What stands before and behind a part.
#[derive(Clone, Copy)]
struct Around {
    open: &'static str,
    close: &'static str,
}

fn around_in_any(part: &Cond) -> Around
    ensures open { result.open.now ≡ opening_in_any (printed part.now).form }
    ensures close { result.close.now ≡ closing_in_any (printed part.now).form }
{
    match part {
        Cond::Any(_) => Around {
            open: "(",
            close: ")",
        },
        _ => Around {
            open: "",
            close: "",
        },
    }
}

fn around_in_all(part: &Cond) -> Around
    ensures open { result.open.now ≡ opening_in_all (printed part.now).form }
    ensures close { result.close.now ≡ closing_in_all (printed part.now).form }
{
    match part {
        Cond::Any(_) | Cond::All(_) => Around {
            open: "(",
            close: ")",
        },
        _ => Around {
            open: "",
            close: "",
        },
    }
}

fn put(out: &mut String, condition: &Cond) -> Result<(), AllocError>
    ensures { OnOk result (Appends out.old out.new (print condition.now)) }
{
    match condition {
        Cond::Any(parts) => {
            let mut before = "";
            for part in parts {
                let around = around_in_any(part);
                out.push_str(before)?;
                out.push_str(around.open)?;
                put(out, part)?;
                out.push_str(around.close)?;
                before = " OR ";
            }
            Ok(())
        }
        Cond::All(parts) => {
            let mut before = "";
            for part in parts {
                let around = around_in_all(part);
                out.push_str(before)?;
                out.push_str(around.open)?;
                put(out, part)?;
                out.push_str(around.close)?;
                before = " AND ";
            }
            Ok(())
        }
        Cond::Not(part) => {
            let around = around_in_all(part.get());
            out.push_str("NOT ")?;
            out.push_str(around.open)?;
            put(out, part.get())?;
            out.push_str(around.close)?;
            Ok(())
        }
        Cond::Compare(left, how, right) => put_comparison(out, left, *how, right),
        Cond::IsNull(sum, not_null) => put_null_test(out, sum, *not_null),
        Cond::Like(sum, pattern, not_like) => put_like_test(out, sum, pattern, *not_like),
    }
}

/// The text of a condition: words in capitals, fields in small letters, one space between tokens
/// except directly inside parentheses, and parentheses only where the grammar needs them. It fails
/// only for want of memory.
pub fn print(alloc: Global, condition: &Cond) -> Result<Text, AllocError>
    ensures { IfOk result (λ text. text ≡ print condition.now) }
{
    let mut out = String::new(alloc);
    put(&mut out, condition)?;
    Text::of(alloc, out.as_str())
}
