// The modifiers that a nest's terms come to, and its rules: 6, 8, 9.
ghost use Rattle.std.specs.Prelude.{◌<◌, ◌≤◌, ◌≡◌, cond, eqb, nat_abs};
ghost use Rattle.engine.specs.ShapeCheck.{check_shape};
ghost use Rattle.translator.specs.Fields.{term_of};
ghost use Rattle.translator.specs.Nests.{coupling_of};
ghost use Rattle.translator.specs.NestSheets.{modifier_of, modifiers_at, modifiers_of};
ghost use Rattle.translator.specs.Keeping.{none_kept, keep_one, keep_all, kept_shape};

use crate::nest::Nest;
use codec::operation::{Behaviour, Parameter};
use codec::refusal::Refusal;
use engine::shape::check_shape;
use engine::stream::{Modifier, Shape};

// The first eight modifiers, and how many there are; 9 is more than eight. They stand as in the engine's Shape, in fixed memory, to which
// they are handed: a vector of eight could not tell that there was a ninth.
#[derive(Drop)]
struct Kept {
    count: usize,
    modifiers: [Modifier; 8],
}

// The modifier that the term of loop `t` for loop `o` comes to; none for a term of 0.
pub(crate) fn modifier_of(m: &Nest, o: usize, t: usize) -> Option<Modifier>
    requires { (o < 7) × (t < 7) }
    ensures { result ≡ cond (eqb (nat_abs (term_of m.now t o)) 0) None (Some (modifier_of m.now o t)) }
{
    let term = m.terms[7 * t + o];
    if term == 0 {
        return None;
    }
    let behaviour = if term < 0 {
        Behaviour::Subtract
    } else {
        Behaviour::Add
    };
    Some(Modifier {
        owner: o,
        target: t,
        parameter: Parameter::Size,
        behaviour,
        displacement: term.unsigned_abs(),
    })
}

impl Kept {
    // No modifier kept.
    fn new() -> Kept
        ensures { result ≡ none_kept }
    {
        let none = Modifier {
            owner: 0,
            target: 0,
            parameter: Parameter::Size,
            behaviour: Behaviour::Add,
            displacement: 0,
        };
        Kept {
            count: 0,
            modifiers: [none; 8],
        }
    }

    // One modifier more kept; of a ninth only the count is.
    fn keep(&mut self, q: Modifier)
        ensures { self.new ≡ keep_one q self.old }
    {
        if self.count < 8 {
            self.modifiers[self.count] = q;
            self.count += 1;
        } else {
            self.count = 9;
        }
    }

    // The modifiers kept that the dimension of loop `o` owns.
    fn keep_terms(&mut self, m: &Nest, o: usize)
        requires { o < 7 }
        ensures { self.new ≡ keep_all (modifiers_at m.now o 0 o) self.old }
    {
        for t in 0..o {
            if let Some(q) = modifier_of(m, o, t) {
                self.keep(q);
            }
        }
    }
}

// All modifiers of a nest, kept.
fn keep_all(m: &Nest) -> Kept
    requires { m.now.loops ≤ 7 }
    ensures { result ≡ keep_all (modifiers_of m.now) none_kept }
{
    let mut kept = Kept::new();
    for o in 0..m.loops {
        kept.keep_terms(m, o);
    }
    kept
}

// The coupling of a coupled loop, 0 for none.
pub(crate) fn coupling_of(coupled: u64) -> Option<u64>
    ensures { result ≡ coupling_of coupled }
{
    match coupled {
        0 => None,
        n => Some(n),
    }
}

// Why a nest whose numbers are in range is refused, if it is, as the engine checks its shape.
pub(crate) fn why_not(m: &Nest) -> Result<(), Refusal>
    requires { m.now.loops ≤ 7 }
    ensures { result ≡ check_shape (kept_shape m.now) }
{
    let kept = keep_all(m);
    let sizes = m.counts;
    let modifiers = kept.modifiers;
    check_shape(Shape {
        dims: m.loops,
        sizes,
        mods: kept.count,
        modifiers,
        coupling: coupling_of(m.coupled),
    })
}
