//! The audit: whether claimed partners are a matching of the links, with no augmenting path of one
//! or three links.
#![tactic(auto)]

ghost use Rattle.std.specs.Prelude.{◌≡◌, length, Some};
ghost use Rattle.graph.specs.Pairs.{is_free};
ghost use Rattle.audit.specs.Claims.{claimed, returned};
ghost use Rattle.audit.specs.Example.{MiddleClaimed};
ghost use Rattle.audit.specs.Soundness.{SoundWhen};
ghost use Rattle.audit.specs.Steps.{Tells, LowestPath};
ghost use Rattle.audit.specs.Verdicts.{is_linked, lowest_not_returned, lowest_not_linked};
ghost use Rattle.audit.specs.Verdicts.{lowest_end, path_of_one_at, path_over_at, path_of_three_at};
ghost use Rattle.audit.specs.Verdicts.{meaning, verdict, Audits};
ghost use Rattle.audit.specs.Words.{verdict_text};

use links::members::linked_loads;
use links::{Layer, Links, Refusal, Refused};
use std::fmt;

/// What an audit finds: the claims are sound, or the first fault.
#[derive(Clone, Copy, PartialEq, Eq, Debug)]
pub enum Verdict {
    /// The claims are a matching of the links without augmenting paths of one or three links.
    Sound,
    /// This load claims a number that is no load, or a load that does not claim it in return.
    NotReturned(usize),
    /// This load is not linked to the partner that it claims.
    NotLinked(usize),
    /// An augmenting path of one link, by its two loads.
    PathOfOne((usize, usize)),
    /// An augmenting path of three links, by its four loads in order.
    PathOfThree((usize, usize, usize, usize)),
}

impl fmt::Display for Verdict {
    ghost output = { λ v. Some (verdict_text v) };

    fn fmt<W: fmt::Write>(&self, f: &mut fmt::Formatter<W>) -> fmt::Result {
        match *self {
            Verdict::Sound => {
                f.write_str("sound: no path of one or three links joins two free loads")
            }
            Verdict::NotReturned(a) => {
                write!(
                    f,
                    "fault: load {a} claims a partner that does not claim it back"
                )
            }
            Verdict::NotLinked(a) => {
                write!(
                    f,
                    "fault: load {a} is not linked to the partner that it claims"
                )
            }
            Verdict::PathOfOne(path) => {
                let (a, b) = path;
                write!(f, "fault: {a} and {b} are free, and linked")
            }
            Verdict::PathOfThree(path) => {
                let (a, x, y, z) = path;
                write!(
                    f,
                    "fault: {a} and {z} are free, and the path {a} {x} {y} {z} would pair both"
                )
            }
        }
    }
}

/// The claim of a load that has no partner: 65,535, which is no load.
pub const NO_PARTNER: u16 = 65535;

// Links, and the partner that each load claims.
#[derive(Drop)]
struct Claimed<'a, L> {
    links: &'a L,
    claims: &'a [u16],
}

impl<L: Links> Claimed<'_, L> {
    // The partner that a load claims.
    fn partner_of(&self, a: usize) -> Option<usize>
        ensures { result ≡ claimed self.now.claims.now a }
    {
        let claim = *self.claims.get(a)?;
        (claim != NO_PARTNER).then_some(usize::from(claim))
    }

    fn is_free(&self, a: usize) -> bool
        ensures { result ≡ is_free (claimed self.now.claims.now) a }
    {
        self.partner_of(a).is_none()
    }

    // Whether the partner of a, if it has one, claims it back.
    fn is_returned(&self, a: usize) -> bool
        ensures { result ≡ returned (claimed self.now.claims.now) a }
    {
        let Some(b) = self.partner_of(a) else {
            return true;
        };
        self.partner_of(b) == Some(a)
    }

    // Whether a is linked to its partner, if it has one.
    fn is_linked(&self, a: usize) -> bool
        ensures { Tells L.Links.made L.Links.graph self.now (λ g p. is_linked g p a) result }
    {
        self.partner_of(a).is_none_or(|b| self.links.linked(a, b))
    }

    fn first_not_returned(&self) -> Option<usize>
        ensures { result
            ≡ lowest_not_returned (length self.now.claims.now) (claimed self.now.claims.now) }
    {
        (0..self.claims.len()).find(|a| !self.is_returned(*a))
    }

    fn first_not_linked(&self) -> Option<usize>
        ensures { Tells L.Links.made L.Links.graph self.now lowest_not_linked result }
    {
        (0..self.claims.len()).find(|a| !self.is_linked(*a))
    }

    // The smallest free load linked to y, other than a.
    fn free_neighbour(&self, a: usize, y: usize) -> Option<usize>
        ensures { Tells L.Links.made L.Links.graph self.now (λ g p. lowest_end g p a y) result }
    {
        linked_loads(self.links, y, self.claims.len()).find(|z| *z != a && self.is_free(*z))
    }

    // The first augmenting path of one link from a, which is free.
    fn path_of_one(&self, a: usize) -> Option<(usize, usize)>
        ensures { Tells L.Links.made L.Links.graph self.now (λ g p. path_of_one_at g p a) result }
    {
        self.free_neighbour(a, a).map(|b| (a, b))
    }

    // The first path from a to x, over the pair of x and on to another free load.
    fn path_over(&self, a: usize, x: usize) -> Option<(usize, usize, usize, usize)>
        ensures { Tells L.Links.made L.Links.graph self.now (λ g p. path_over_at g p a x) result }
    {
        let y = self.partner_of(x)?;
        self.free_neighbour(a, y).map(|z| (a, x, y, z))
    }

    // The first augmenting path of three links from a, which is free.
    fn path_of_three(&self, a: usize) -> Option<(usize, usize, usize, usize)>
        ensures { Tells L.Links.made L.Links.graph self.now (λ g p. path_of_three_at g p a) result }
    {
        linked_loads(self.links, a, self.claims.len()).find_map(|x| self.path_over(a, x))
    }

    // The first path that `path_from` finds at a free load, from the lowest one on.
    fn first_path<P, F: Fn(usize) -> Option<P>>(&self, path_from: F) -> Option<P>
        requires { F.IsAlwaysCallable path_from }
        ensures { LowestPath (length self.now.claims.now) (claimed self.now.claims.now)
            (F.post path_from) result }
    {
        (0..self.claims.len()).find_map(|a| { if self.is_free(a) { path_from(a) } else { None } })
    }

    // The verdict on one claim for each load.
    fn verdict(&self) -> Verdict
        ensures { Tells L.Links.made L.Links.graph self.now verdict (meaning result) }
    {
        if let Some(a) = self.first_not_returned() {
            return Verdict::NotReturned(a);
        }
        if let Some(a) = self.first_not_linked() {
            return Verdict::NotLinked(a);
        }
        if let Some(path) = self.first_path(|a| self.path_of_one(a)) {
            return Verdict::PathOfOne(path);
        }
        match self.first_path(|a| self.path_of_three(a)) {
            Some(path) => Verdict::PathOfThree(path),
            None => Verdict::Sound,
        }
    }
}

/// Judges claimed partners: they are sound, or what their first fault is. `claims` has a number for
/// each load: the partner that it claims, or `NO_PARTNER`. Nothing is changed.
///
/// The faults are looked for in the order of the verdicts: a claim that is not returned, then a
/// partner that is not linked, then an augmenting path of one link, then one of three. Of each kind
/// the first is the one at the lowest load, and of paths that begin at one load the one that goes
/// on with the lowest.
///
/// Refused with 3 (board) where there are more or fewer claims than loads. Nothing else is refused.
///
/// Looks at each claim, and asks for one link of each load with a partner. For the paths it goes
/// over the links of each free load, and at each of these links over those of the partner found
/// there.
pub fn audit<L: Links>(links: &L, claims: &[u16]) -> Result<Verdict, Refused>
    ensures value { L.Links.made links.now → Audits (L.Links.graph links.now) claims.now result }
    ensures sound { L.Links.made links.now → SoundWhen (L.Links.graph links.now) claims.now result }
{
    if claims.len() != links.size() {
        return Err(Refusal::WrongLength.by(Layer::Board));
    }
    Ok(Claimed { links, claims }.verdict())
}

/// On a path of four loads of which only the middle two claim each other, the audit finds an
/// augmenting path.
pub fn middle_pair_leaves_a_path()
    ensures { MiddleClaimed }
{}
