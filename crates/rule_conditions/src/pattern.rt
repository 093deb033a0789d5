// LIKE: texts by patterns.
ghost use Rattle.std.specs.Prelude.{◌≡◌, ◌==◌, ◌||◌, ◌<◌, ◌≤◌, IfSome, IfNone, [], ◌∷◌, length};
ghost use Rattle.std.specs.Str.{chars};
ghost use Rattle.rule_conditions.specs.Like.{is_like, some_suffix};
ghost use Rattle.rule_conditions.specs.Attempts.{IsAttempt};

/// How far the part of a pattern before its first `%` led.
#[derive(Clone, Copy)]
enum Tried<'a> {
    /// The pattern was used up, or a character was another: whether all is matched.
    Ended(bool),
    /// All characters before `%` were there: what stands behind them, and the pattern behind `%`.
    Star(&'a str, &'a str),
}

/// The first character of a text and what stands behind it.
fn first_of(text: &str) -> Option<(char, &str)>
    ensures some { IfSome result (λ r. chars text.now ≡ r.0 ∷ chars r.1.now) }
    ensures none { IfNone result (chars text.now ≡ []) }
{
    let mut rest = text.chars();
    let first = rest.next()?;
    Some((first, rest.as_str()))
}

fn takes(wanted: char, found: char) -> bool
    ensures { result ≡ (wanted == 95 || wanted == found) }
{
    wanted == '_' || wanted == found
}

/// Matches the characters before the first `%` of a pattern one by one with those of a text.
fn attempt<'a>(pattern: &'a str, text: &'a str) -> Tried<'a>
    ensures { IsAttempt (chars pattern.now) (chars text.now) result }
{
    let mut wanted_rest = pattern;
    let mut rest = text;
    loop {
        let Some((wanted, wanted_after)) = first_of(wanted_rest) else {
            return Tried::Ended(first_of(rest).is_none());
        };
        if wanted == '%' {
            return Tried::Star(rest, wanted_after);
        }
        let Some((found, after)) = first_of(rest) else {
            return Tried::Ended(false);
        };
        if !takes(wanted, found) {
            return Tried::Ended(false);
        }
        wanted_rest = wanted_after;
        rest = after;
    }
}

/// Whether a pattern matches a text or what is left of it behind some of its characters.
fn matches_somewhere(pattern: &str, text: &str) -> bool
    ensures { result ≡ some_suffix (is_like (chars pattern.now)) (chars text.now) }
{
    let mut wanted_rest = pattern;
    let mut rest = text;
    loop {
        match attempt(wanted_rest, rest) {
            Tried::Ended(true) => return true,
            Tried::Ended(false) => {
                let Some((_, after)) = first_of(rest) else {
                    return false;
                };
                rest = after;
            }
            Tried::Star(text_after, pattern_after) => {
                rest = text_after;
                wanted_rest = pattern_after;
            }
        }
    }
}

/// Whether a text is like a pattern, in which `%` is any run of characters, `_` is any one, and
/// each other character is itself. It takes no memory, and its time is the product of the two
/// lengths at most.
pub fn like(text: &str, pattern: &str) -> bool
    ensures { result ≡ is_like (chars pattern.now) (chars text.now) }
{
    match attempt(pattern, text) {
        Tried::Ended(matched) => matched,
        Tried::Star(text_after, pattern_after) => matches_somewhere(pattern_after, text_after),
    }
}
