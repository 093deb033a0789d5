// What has been read of a condition, how that grows by a token, and what it comes to.
ghost use Rattle.std.specs.Prelude.{◌≡◌, ◌∷◌, ◌++◌, [], IfOk, IfSome, IfNone, OnOk, option_map};
ghost use Rattle.rule_conditions.specs.Outline.{group, together};
ghost use Rattle.rule_text.specs.Outline.{read_unit, closed, wrapped, whole_unit, with_atom, no_partial, after_atom, after_not, after_is, after_like, after_comparison, after_sign, after_times, after_and, after_or, after_open, after_close, finish, inner_step, step, meant, null_test, like_test, left_sum, tested_sum, deeper, opened, is_unit, after_not_inside, with_phase, left, phase_after};

use crate::tokens::Token;
use payload_records::{Boxed, List};
use rule_conditions::{Atom, Cmp, Cond, Product, Sum, Term};
use std::alloc::{AllocError, Global};

/// What has been read of a condition: the operands of OR and of AND before the unit that is read, in
/// the innermost open parentheses, what these stand in, and how far the unit is read.
pub struct Outline {
    /// The operands of OR that are whole.
    pub alternatives: List<Cond>,
    /// The operands of AND behind the last OR.
    pub parts: List<Cond>,
    /// What the unit stands in, the innermost first.
    pub frames: List<Frame>,
    /// How far the unit is read.
    pub phase: Phase,
}

/// What a unit stands in.
#[derive(Drop)]
pub enum Frame {
    /// Behind NOT.
    Not,
    /// In parentheses that stand behind these operands of OR and these of AND.
    Open(List<Cond>, List<Cond>),
}

/// How far a unit is read.
pub enum Phase {
    /// Nothing of it.
    Unit,
    /// A sum, up to where an atom has to follow.
    Factor(Side, Partial),
    /// A sum, up to an atom.
    Operated(Side, Partial),
    /// A sum and IS.
    Is(Sum),
    /// A sum and IS NOT.
    IsNot(Sum),
    /// A sum and NOT.
    NotLike(Sum),
    /// A sum and LIKE, or NOT LIKE where the flag is set.
    Like(Sum, bool),
    /// All of it, so that nothing of the unit may follow.
    Done(Cond),
}

/// On which side of a comparison a sum stands.
pub enum Side {
    /// It may stand before any test.
    Left,
    /// It stands behind this sum and this sign of a comparison.
    Right(Sum, Cmp),
}

/// A sum that may go on.
pub struct Partial {
    /// The terms before the last sign.
    pub terms: List<Term>,
    /// Whether the last term is subtracted.
    pub minus: bool,
    /// The atoms of the last term.
    pub atoms: List<Atom>,
}

impl Drop for Outline {
    fn drop(self) {
        let Self {
            alternatives: _,
            parts: _,
            frames: _,
            phase: _,
        } = self;
    }
}

impl Drop for Phase {
    fn drop(self) {
        match self {
            Self::Unit
            | Self::Factor(_, _)
            | Self::Operated(_, _)
            | Self::Is(_)
            | Self::IsNot(_)
            | Self::NotLike(_)
            | Self::Like(_, _)
            | Self::Done(_) => {}
        }
    }
}

impl Drop for Side {
    fn drop(self) {
        match self {
            Self::Left | Self::Right(_, _) => {}
        }
    }
}

impl Drop for Partial {
    fn drop(self) {
        let Self {
            terms: _,
            minus: _,
            atoms: _,
        } = self;
    }
}

impl Partial {
    /// A sum of which nothing is read. It takes no memory.
    pub fn new(alloc: Global) -> Partial
        ensures { result ≡ no_partial }
    {
        Partial {
            terms: List::new(alloc),
            minus: false,
            atoms: List::new(alloc),
        }
    }

    /// The sum without what may follow.
    pub fn closed(self) -> Result<Sum, AllocError>
        ensures { IfOk result (λ sum. sum ≡ closed self) }
    {
        let Partial {
            terms,
            minus,
            atoms,
        } = self;
        let mut terms = terms;
        terms.push(Term {
            minus,
            product: Product { atoms },
        })?;
        Ok(Sum { terms })
    }
}

fn put_front(frames: &mut List<Frame>, frame: Frame) -> Result<(), AllocError>
    ensures { OnOk result (frames.new ≡ frame ∷ frames.old) }
{
    frames.insert(0, frame)
}

fn take_front(frames: &mut List<Frame>) -> Option<Frame>
    ensures some { IfSome result (λ frame. frames.old ≡ frame ∷ frames.new) }
    ensures none { IfNone result ((frames.old ≡ []) × (frames.new ≡ [])) }
{
    if frames.is_empty() {
        return None;
    }
    Some(frames.remove(0))
}

fn all_of(parts: List<Cond>, last: Cond) -> Result<Cond, AllocError>
    ensures { IfOk result (λ c. c ≡ together (λ cs. Cond.All cs) parts last) }
{
    if parts.is_empty() {
        return Ok(last);
    }
    let mut parts = parts;
    parts.push(last)?;
    Ok(Cond::All(parts))
}

fn any_of(parts: List<Cond>, last: Cond) -> Result<Cond, AllocError>
    ensures { IfOk result (λ c. c ≡ together (λ cs. Cond.Any cs) parts last) }
{
    if parts.is_empty() {
        return Ok(last);
    }
    let mut parts = parts;
    parts.push(last)?;
    Ok(Cond::Any(parts))
}

fn null_test(sum: Sum, negated: bool, atom: Atom) -> Option<Phase>
    ensures { result ≡ null_test sum negated atom }
{
    match atom {
        Atom::Null => Some(Phase::Done(Cond::IsNull(sum, negated))),
        _ => None,
    }
}

fn like_test(sum: Sum, negated: bool, atom: Atom) -> Option<Phase>
    ensures { result ≡ like_test sum negated atom }
{
    match atom {
        Atom::Text(pattern) => Some(Phase::Done(Cond::Like(sum, pattern, negated))),
        _ => None,
    }
}

fn with_atom(partial: Partial, atom: Atom) -> Result<Partial, AllocError>
    ensures { IfOk result (λ p. p ≡ with_atom partial atom) }
{
    let mut partial = partial;
    partial.atoms.push(atom)?;
    Ok(partial)
}

pub fn is_unit(phase: &Phase) -> bool
    ensures { result ≡ is_unit phase.now }
{
    matches!(phase, Phase::Unit)
}

fn with_front(frames: List<Frame>, frame: Frame) -> Result<List<Frame>, AllocError>
    ensures { IfOk result (λ now. now ≡ frame ∷ frames) }
{
    let mut frames = frames;
    put_front(&mut frames, frame)?;
    Ok(frames)
}

fn wrapped(unit: Cond, frames: List<Frame>) -> Result<(Cond, List<Frame>), AllocError>
    ensures { IfOk result (λ w. w ≡ wrapped unit frames) }
{
    let mut frames = frames;
    let alloc = frames.allocator();
    match take_front(&mut frames) {
        None => Ok((unit, frames)),
        Some(Frame::Not) => wrapped(Cond::Not(Boxed::new(alloc, unit)?), frames),
        Some(Frame::Open(alternatives, parts)) => {
            put_front(&mut frames, Frame::Open(alternatives, parts))?;
            Ok((unit, frames))
        }
    }
}

fn left(unit: Cond, frames: List<Frame>) -> Option<Outline>
    ensures { result ≡ left unit frames }
{
    let mut frames = frames;
    match take_front(&mut frames) {
        Some(Frame::Open(alternatives, parts)) => Some(Outline {
            alternatives,
            parts,
            frames,
            phase: Phase::Done(unit),
        }),
        _ => None,
    }
}

fn group(alternatives: List<Cond>, parts: List<Cond>, unit: Cond) -> Result<Cond, AllocError>
    ensures { IfOk result (λ c. c ≡ group alternatives parts unit) }
{
    any_of(alternatives, all_of(parts, unit)?)
}

fn whole_unit(frames: List<Frame>, phase: Phase) -> Result<Option<(Cond, List<Frame>)>, AllocError>
    ensures { IfOk result (λ w. w ≡ option_map (λ unit. wrapped unit frames) (read_unit phase)) }
{
    match phase.read_unit()? {
        Some(unit) => Ok(Some(wrapped(unit, frames)?)),
        None => Ok(None),
    }
}

fn with_alternative(
    alternatives: List<Cond>,
    parts: List<Cond>,
    unit: Cond,
) -> Result<List<Cond>, AllocError>
    ensures { IfOk result (λ cs. cs ≡ alternatives ++ together (λ cs. Cond.All cs) parts unit ∷ []) }
{
    let mut alternatives = alternatives;
    alternatives.push(all_of(parts, unit)?)?;
    Ok(alternatives)
}

impl Side {
    fn compared(self, partial: Partial) -> Result<Option<Cond>, AllocError>
        ensures { IfOk result (λ unit. unit ≡ read_unit (Phase.Operated self partial)) }
    {
        match self {
            Side::Left => Ok(None),
            Side::Right(left, how) => Ok(Some(Cond::Compare(left, how, partial.closed()?))),
        }
    }

    fn left_sum(self, partial: Partial) -> Result<Option<Sum>, AllocError>
        ensures { IfOk result (λ s. s ≡ left_sum self partial) }
    {
        match self {
            Side::Left => Ok(Some(partial.closed()?)),
            Side::Right(_, _) => Ok(None),
        }
    }
}

impl Phase {
    fn read_unit(self) -> Result<Option<Cond>, AllocError>
        ensures { IfOk result (λ unit. unit ≡ read_unit self) }
    {
        match self {
            Phase::Operated(side, partial) => side.compared(partial),
            Phase::Done(unit) => Ok(Some(unit)),
            _ => Ok(None),
        }
    }

    fn tested_sum(self) -> Result<Option<Sum>, AllocError>
        ensures { IfOk result (λ s. s ≡ tested_sum self) }
    {
        match self {
            Phase::Operated(side, partial) => side.left_sum(partial),
            _ => Ok(None),
        }
    }

    fn after_atom(self, alloc: Global, atom: Atom) -> Result<Option<Phase>, AllocError>
        ensures { IfOk result (λ p. p ≡ after_atom self atom) }
    {
        match self {
            Phase::Unit => {
                let partial = with_atom(Partial::new(alloc), atom)?;
                Ok(Some(Phase::Operated(Side::Left, partial)))
            }
            Phase::Factor(side, partial) => Ok(Some(Phase::Operated(
                side,
                with_atom(partial, atom)?,
            ))),
            Phase::Is(sum) => Ok(null_test(sum, false, atom)),
            Phase::IsNot(sum) => Ok(null_test(sum, true, atom)),
            Phase::Like(sum, negated) => Ok(like_test(sum, negated, atom)),
            _ => Ok(None),
        }
    }

    fn after_is(self) -> Result<Option<Phase>, AllocError>
        ensures { IfOk result (λ p. p ≡ after_is self) }
    {
        Ok(self.tested_sum()?.map(Phase::Is))
    }

    fn after_like(self) -> Result<Option<Phase>, AllocError>
        ensures { IfOk result (λ p. p ≡ after_like self) }
    {
        match self {
            Phase::NotLike(sum) => Ok(Some(Phase::Like(sum, true))),
            phase => match phase.tested_sum()? {
                Some(sum) => Ok(Some(Phase::Like(sum, false))),
                None => Ok(None),
            },
        }
    }

    fn after_comparison(self, alloc: Global, how: Cmp) -> Result<Option<Phase>, AllocError>
        ensures { IfOk result (λ p. p ≡ after_comparison self how) }
    {
        match self.tested_sum()? {
            Some(sum) => Ok(Some(Phase::Factor(Side::Right(sum, how), Partial::new(alloc)))),
            None => Ok(None),
        }
    }

    fn after_sign(self, alloc: Global, minus: bool) -> Result<Option<Phase>, AllocError>
        ensures { IfOk result (λ p. p ≡ after_sign self minus) }
    {
        match self {
            Phase::Operated(side, partial) => {
                let Sum { terms } = partial.closed()?;
                let partial = Partial {
                    terms,
                    minus,
                    atoms: List::new(alloc),
                };
                Ok(Some(Phase::Factor(side, partial)))
            }
            _ => Ok(None),
        }
    }

    fn after_times(self) -> Option<Phase>
        ensures { result ≡ after_times self }
    {
        match self {
            Phase::Operated(side, partial) => Some(Phase::Factor(side, partial)),
            _ => None,
        }
    }

    fn after_not_inside(self) -> Result<Option<Phase>, AllocError>
        ensures { IfOk result (λ p. p ≡ after_not_inside self) }
    {
        match self {
            Phase::Operated(side, partial) => Ok(side.left_sum(partial)?.map(Phase::NotLike)),
            Phase::Is(sum) => Ok(Some(Phase::IsNot(sum))),
            _ => Ok(None),
        }
    }

    fn after(self, alloc: Global, token: Token) -> Result<Option<Phase>, AllocError>
        ensures { IfOk result (λ p. p ≡ phase_after self (meant token)) }
    {
        match token {
            Token::Is => self.after_is(),
            Token::Like => self.after_like(),
            Token::Operand(atom) => self.after_atom(alloc, atom),
            Token::Compared(how) => self.after_comparison(alloc, how),
            Token::Plus => self.after_sign(alloc, false),
            Token::Minus => self.after_sign(alloc, true),
            Token::Times => Ok(self.after_times()),
            _ => Ok(None),
        }
    }
}

impl Outline {
    fn deeper(self) -> Result<Option<Outline>, AllocError>
        ensures { IfOk result (λ s. s ≡ deeper self) }
    {
        if !self.has_room() {
            return Ok(None);
        }
        let Outline {
            alternatives,
            parts,
            frames,
            phase,
        } = self;
        drop(phase);
        let frames = with_front(frames, Frame::Not)?;
        Ok(Some(Outline {
            alternatives,
            parts,
            frames,
            phase: Phase::Unit,
        }))
    }

    fn opened(self, alloc: Global) -> Result<Option<Outline>, AllocError>
        ensures { IfOk result (λ s. s ≡ opened self) }
    {
        if !self.has_room() {
            return Ok(None);
        }
        let Outline {
            alternatives,
            parts,
            frames,
            phase,
        } = self;
        drop(phase);
        let frames = with_front(frames, Frame::Open(alternatives, parts))?;
        Ok(Some(Outline {
            alternatives: List::new(alloc),
            parts: List::new(alloc),
            frames,
            phase: Phase::Unit,
        }))
    }

    fn after_and(self) -> Result<Option<Outline>, AllocError>
        ensures { IfOk result (λ s. s ≡ after_and self) }
    {
        let Outline {
            alternatives,
            parts,
            frames,
            phase,
        } = self;
        match whole_unit(frames, phase)? {
            Some((unit, frames)) => {
                let mut parts = parts;
                parts.push(unit)?;
                Ok(Some(Outline {
                    alternatives,
                    parts,
                    frames,
                    phase: Phase::Unit,
                }))
            }
            None => Ok(None),
        }
    }

    fn after_or(self, alloc: Global) -> Result<Option<Outline>, AllocError>
        ensures { IfOk result (λ s. s ≡ after_or self) }
    {
        let Outline {
            alternatives,
            parts,
            frames,
            phase,
        } = self;
        match whole_unit(frames, phase)? {
            Some((unit, frames)) => Ok(Some(Outline {
                alternatives: with_alternative(alternatives, parts, unit)?,
                parts: List::new(alloc),
                frames,
                phase: Phase::Unit,
            })),
            None => Ok(None),
        }
    }

    fn after_close(self) -> Result<Option<Outline>, AllocError>
        ensures { IfOk result (λ s. s ≡ after_close self) }
    {
        let Outline {
            alternatives,
            parts,
            frames,
            phase,
        } = self;
        match whole_unit(frames, phase)? {
            Some((unit, frames)) => Ok(left(group(alternatives, parts, unit)?, frames)),
            None => Ok(None),
        }
    }

    fn inside(self) -> Result<Option<Outline>, AllocError>
        ensures { IfOk result (λ s. s ≡ option_map (with_phase self) (after_not_inside self.phase)) }
    {
        let Outline {
            alternatives,
            parts,
            frames,
            phase,
        } = self;
        match phase.after_not_inside()? {
            Some(phase) => Ok(Some(Outline {
                alternatives,
                parts,
                frames,
                phase,
            })),
            None => Ok(None),
        }
    }

    fn after_not(self) -> Result<Option<Outline>, AllocError>
        ensures { IfOk result (λ s. s ≡ after_not self) }
    {
        if is_unit(&self.phase) {
            self.deeper()
        } else {
            self.inside()
        }
    }

    fn after_open(self, alloc: Global) -> Result<Option<Outline>, AllocError>
        ensures { IfOk result (λ s. s ≡ after_open self) }
    {
        if is_unit(&self.phase) {
            self.opened(alloc)
        } else {
            Ok(None)
        }
    }

    fn inner_step(self, alloc: Global, token: Token) -> Result<Option<Outline>, AllocError>
        ensures { IfOk result (λ s. s ≡ inner_step self (meant token)) }
    {
        let Outline {
            alternatives,
            parts,
            frames,
            phase,
        } = self;
        match phase.after(alloc, token)? {
            Some(phase) => Ok(Some(Outline {
                alternatives,
                parts,
                frames,
                phase,
            })),
            None => Ok(None),
        }
    }

    /// The outline behind one more token, or None where the token may not come.
    pub fn step(self, alloc: Global, token: Token) -> Result<Option<Outline>, AllocError>
        ensures { IfOk result (λ s. s ≡ step self (meant token)) }
    {
        match token {
            Token::Or => self.after_or(alloc),
            Token::And => self.after_and(),
            Token::Not => self.after_not(),
            Token::Open => self.after_open(alloc),
            Token::Close => self.after_close(),
            token => self.inner_step(alloc, token),
        }
    }

    /// The condition that is read, where it may end.
    pub fn finish(self) -> Result<Option<Cond>, AllocError>
        ensures { IfOk result (λ c. c ≡ finish self) }
    {
        let Outline {
            alternatives,
            parts,
            frames,
            phase,
        } = self;
        match whole_unit(frames, phase)? {
            Some((unit, frames)) if frames.is_empty() => Ok(Some(group(
                alternatives,
                parts,
                unit,
            )?)),
            _ => Ok(None),
        }
    }
}
