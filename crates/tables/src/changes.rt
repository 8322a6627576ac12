// What follows a change of a link or of a partner. A flag `on` or `up` says what holds afterwards:
// linked or not, free or not. It is a bool, as the bit that is written.
ghost use Rattle.std.specs.Prelude.{◌≡◌, ℕ, ◌≤◌, true, false, None, ◌&&◌, ◌⊎◌, ◌==◌, nat_eq};
ghost use Rattle.graph.specs.Pairs.{is_free};
ghost use Rattle.rules.specs.Repair.{paired};
ghost use Rattle.tables.specs.Views.{partners_of};
ghost use Rattle.tables.specs.Steps.{stepped, Stepped, with_partner, Written};
ghost use Rattle.tables.specs.Changes.{OfLinks, Relinking, Pairing, Parting};
ghost use Rattle.tables.specs.Changes.{Exchanging, Replacing};

use crate::Tables;
use links::members::linked_loads;
use links::{Links, MOST_LOADS};

// One more or one less.
fn step(n: u16, up: bool) -> u16
    ensures { result ≡ stepped up n }
{
    if up {
        n.saturating_add(1)
    } else {
        n.saturating_sub(1)
    }
}

impl Tables {
    // x, which is linked to a, learns that a is now free, or no longer.
    fn tell(&mut self, x: u8, a: u8, on: bool)
        ensures { Stepped on (λ _. false) (nat_eq x) a self.old self.new }
    {
        let x = usize::from(x);
        self.records[x].free_degree = step(self.records[x].free_degree, on);
        self.free[x].put(a, on);
    }

    // a has one link more or fewer.
    fn count_link(&mut self, a: u8, on: bool)
        ensures { (b : ℕ) → Stepped on (nat_eq a) (λ _. false) b self.old self.new }
    {
        let a = usize::from(a);
        self.records[a].degree = step(self.records[a].degree, on);
    }

    // a gets or loses a link to b.
    fn put_link(&mut self, a: u8, b: u8, on: bool)
        ensures { Stepped on (nat_eq a) (λ y. (a == y) && is_free (partners_of self.old) b) b
            self.old self.new }
    {
        let free = self.is_free(b as usize);
        self.count_link(a, on);
        if free {
            self.tell(a, b, on);
        }
    }

    // a and b get their link, or lose it.
    fn relink(&mut self, a: usize, b: usize, on: bool)
        ensures changed { Relinking on a b self.old self.new }
        ensures ignored { (MOST_LOADS ≤ a) ⊎ (MOST_LOADS ≤ b) → self.new ≡ self.old }
    {
        if let (Ok(a), Ok(b)) = (u8::try_from(a), u8::try_from(b)) {
            self.put_link(a, b, on);
            self.put_link(b, a, on);
        }
    }

    /// Follows a link of `a` and `b` that the book gained: each has one link more, and is linked to
    /// one free load more if the other is free. To be called when the two, which were not, are
    /// linked. Does nothing where a number is not below 256. Writes the records and sets of both.
    pub fn link(&mut self, a: usize, b: usize)
        ensures changed { Relinking true a b self.old self.new }
        ensures ignored { (MOST_LOADS ≤ a) ⊎ (MOST_LOADS ≤ b) → self.new ≡ self.old }
    {
        self.relink(a, b, true);
    }

    /// Follows a link of `a` and `b` that the book lost: each has one link fewer, and is linked to
    /// one free load fewer if the other is free. To be called when the two, which were, are no
    /// longer linked. Does nothing where a number is not below 256. Writes the records and sets of
    /// both.
    pub fn unlink(&mut self, a: usize, b: usize)
        ensures changed { Relinking false a b self.old self.new }
        ensures ignored { (MOST_LOADS ≤ a) ⊎ (MOST_LOADS ≤ b) → self.new ≡ self.old }
    {
        self.relink(a, b, false);
    }

    // Each load that is linked to a learns that a is now free, or no longer.
    fn tell_linked<L: Links>(&mut self, links: &L, a: u8, on: bool)
        ensures { OfLinks (L.Links.made links.now) (L.Links.graph links.now)
            (λ g. Stepped on (λ _. false) (g.linked a) a self.old self.new) }
    {
        for x in linked_loads(links, usize::from(a), MOST_LOADS) {
            self.tell(x as u8, a, on);
        }
    }

    // a has this partner from now on, or none. No load learns of it.
    fn write_partner(&mut self, a: u8, partner: Option<u8>)
        ensures { Written (with_partner a partner (partners_of self.old)) self.old self.new }
    {
        self.records[usize::from(a)].partner = partner;
    }

    // a and b are partners from now on. No load learns of it.
    fn write_pair(&mut self, a: u8, b: u8)
        ensures { Written (paired a b (partners_of self.old)) self.old self.new }
    {
        self.write_partner(b, Some(a));
        self.write_partner(a, Some(b));
    }

    /// Makes partners of `a` and `b`, which are free: each load linked to one of them learns that
    /// it no longer is. Does nothing where a number is not below 256. Looks at the links of both.
    pub fn pair<L: Links>(&mut self, links: &L, a: usize, b: usize)
        ensures changed { OfLinks (L.Links.made links.now) (L.Links.graph links.now)
            (λ g. Pairing g a b self.old self.new) }
        ensures ignored { (MOST_LOADS ≤ a) ⊎ (MOST_LOADS ≤ b) → self.new ≡ self.old }
    {
        if let (Ok(a), Ok(b)) = (u8::try_from(a), u8::try_from(b)) {
            self.write_pair(a, b);
            self.tell_linked(links, a, false);
            self.tell_linked(links, b, false);
        }
    }

    /// Parts `a` and `b`, which are partners: each load linked to one of them learns that it is now
    /// free. Does nothing where a number is not below 256. Looks at the links of both.
    pub fn part<L: Links>(&mut self, links: &L, a: usize, b: usize)
        ensures changed { OfLinks (L.Links.made links.now) (L.Links.graph links.now)
            (λ g. Parting g a b self.old self.new) }
        ensures ignored { (MOST_LOADS ≤ a) ⊎ (MOST_LOADS ≤ b) → self.new ≡ self.old }
    {
        if let (Ok(a), Ok(b)) = (u8::try_from(a), u8::try_from(b)) {
            self.write_partner(b, None);
            self.write_partner(a, None);
            self.tell_linked(links, a, true);
            self.tell_linked(links, b, true);
        }
    }

    /// Takes the augmenting path `a`, `x`, `y`, `z`, of which `a` and `z` are free and `x` and `y`
    /// are partners: `a` and `x` become partners, and so do `y` and `z`. Only the loads linked to
    /// `a` or `z` learn of it, since `x` and `y` have a partner as before. Does nothing where a
    /// number is not below 256. Looks at the links of `a` and `z`.
    pub fn exchange<L: Links>(&mut self, links: &L, a: usize, x: usize, y: usize, z: usize)
        ensures changed { OfLinks (L.Links.made links.now) (L.Links.graph links.now)
            (λ g. Exchanging g a x y z self.old self.new) }
        ensures ignored { (MOST_LOADS ≤ a) ⊎ (MOST_LOADS ≤ x) ⊎ (MOST_LOADS ≤ y) ⊎ (MOST_LOADS ≤ z)
            → self.new ≡ self.old }
    {
        if let (Ok(a), Ok(x), Ok(y), Ok(z)) = (
            u8::try_from(a),
            u8::try_from(x),
            u8::try_from(y),
            u8::try_from(z),
        ) {
            self.write_pair(a, x);
            self.write_pair(y, z);
            self.tell_linked(links, a, false);
            self.tell_linked(links, z, false);
        }
    }

    /// Puts `a`, which is free, in the place of `y`, the partner of `x`: `a` and `x` become
    /// partners, and `y` becomes free. Only the loads linked to `a` or `y` learn of it, since `x`
    /// has a partner as before. Does nothing where a number is not below 256. Looks at the links of
    /// `a` and `y`.
    pub fn replace<L: Links>(&mut self, links: &L, a: usize, x: usize, y: usize)
        ensures changed { OfLinks (L.Links.made links.now) (L.Links.graph links.now)
            (λ g. Replacing g a x y self.old self.new) }
        ensures ignored { (MOST_LOADS ≤ a) ⊎ (MOST_LOADS ≤ x) ⊎ (MOST_LOADS ≤ y)
            → self.new ≡ self.old }
    {
        if let (Ok(a), Ok(x), Ok(y)) = (u8::try_from(a), u8::try_from(x), u8::try_from(y)) {
            self.write_pair(a, x);
            self.write_partner(y, None);
            self.tell_linked(links, a, false);
            self.tell_linked(links, y, true);
        }
    }
}
