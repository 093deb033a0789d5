// What may come behind what has been read of a condition.
ghost use Rattle.std.specs.Prelude.{◌≡◌};
ghost use Rattle.std.specs.List.{list_any};
ghost use Rattle.rule_text.specs.Outline.{has_room, is_is, takes_atom, takes_text, takes_sign, takes_test, takes_end, takes_open, takes_close, takes_word, is_open, is_is_not, is_not_like};

use crate::outline::{Frame, Outline, Phase, Side, is_unit};
use crate::tokens::Word;
use payload_records::List;

impl Outline {
    /// Whether an atom of any kind may come.
    pub fn takes_atom(&self) -> bool
        ensures { result ≡ takes_atom self.now.phase }
    {
        matches!(&self.phase, Phase::Unit | Phase::Factor(_, _))
    }

    /// Whether a text may come.
    pub fn takes_text(&self) -> bool
        ensures { result ≡ takes_text self.now.phase }
    {
        matches!(
            &self.phase,
            Phase::Unit | Phase::Factor(_, _) | Phase::Like(_, _)
        )
    }

    /// Whether `+`, `-` or `*` may come.
    pub fn takes_sign(&self) -> bool
        ensures { result ≡ takes_sign self.now.phase }
    {
        matches!(&self.phase, Phase::Operated(_, _))
    }

    /// Whether what makes a test of a sum may come.
    pub fn takes_test(&self) -> bool
        ensures { result ≡ takes_test self.now.phase }
    {
        matches!(&self.phase, Phase::Operated(Side::Left, _))
    }

    /// Whether the unit may end.
    fn takes_end(&self) -> bool
        ensures { result ≡ takes_end self.now.phase }
    {
        matches!(
            &self.phase,
            Phase::Operated(Side::Right(_, _), _) | Phase::Done(_)
        )
    }

    /// Whether an opening parenthesis may come.
    pub fn takes_open(&self) -> bool
        ensures { result ≡ takes_open self.now }
    {
        is_unit(&self.phase) && self.has_room()
    }

    /// Whether a closing parenthesis may come.
    pub fn takes_close(&self) -> bool
        ensures { result ≡ takes_close self.now }
    {
        self.takes_end() && has_open(&self.frames)
    }

    /// Whether NOT may come.
    fn takes_not(&self) -> bool
        ensures { result ≡ takes_word self.now Word.Not }
    {
        self.takes_open() || self.takes_test() || is_is(&self.phase)
    }

    /// Whether NULL may come.
    fn takes_null(&self) -> bool
        ensures { result ≡ takes_word self.now Word.Null }
    {
        self.takes_atom() || is_is(&self.phase) || is_is_not(&self.phase)
    }

    /// Whether a word may come.
    pub fn takes_word(&self, word: Word) -> bool
        ensures { result ≡ takes_word self.now word }
    {
        match word {
            Word::Or | Word::And => self.takes_end(),
            Word::Not => self.takes_not(),
            Word::Is => self.takes_test(),
            Word::Like => self.takes_test() || is_not_like(&self.phase),
            Word::Null => self.takes_null(),
            Word::Priority | Word::Corr | Word::Cell | Word::Prop => self.takes_atom(),
        }
    }

    /// Whether a further level may begin.
    pub fn has_room(&self) -> bool
        ensures { result ≡ has_room self.now }
    {
        self.frames.len() < rule_conditions::DEPTH_LIMIT
    }
}

fn has_open(frames: &List<Frame>) -> bool
    ensures { result ≡ list_any is_open frames.now }
{
    frames.iter().any(|frame| is_open(frame))
}

fn is_open(frame: &Frame) -> bool
    ensures { result ≡ is_open frame.now }
{
    matches!(frame, Frame::Open(_, _))
}

fn is_is(phase: &Phase) -> bool
    ensures { result ≡ is_is phase.now }
{
    matches!(phase, Phase::Is(_))
}

fn is_is_not(phase: &Phase) -> bool
    ensures { result ≡ is_is_not phase.now }
{
    matches!(phase, Phase::IsNot(_))
}

fn is_not_like(phase: &Phase) -> bool
    ensures { result ≡ is_not_like phase.now }
{
    matches!(phase, Phase::NotLike(_))
}
