// Audits of what boards and others claim.
use crate::comparing::same;
use crate::trial::Trial;
use anyhow::Result;
use audit::{NO_PARTNER, Verdict, audit};
use board::Board;
use links::{Book, Links, Refused};
use ranking::Ranking;
use reference::claims::{Finding, examine};
use reference::pairing::Pairing;
use reference::plain_book::PlainBook;

// A verdict in the reference's words.
fn finding_of(verdict: Verdict) -> Finding {
    match verdict {
        Verdict::Sound => Finding::Sound,
        Verdict::NotReturned(a) => Finding::NotReturned(a),
        Verdict::NotLinked(a) => Finding::NotLinked(a),
        Verdict::PathOfOne((a, b)) => Finding::PathOfOne(a, b),
        Verdict::PathOfThree((a, x, y, z)) => Finding::PathOfThree(a, x, y, z),
    }
}

fn claim(load: usize) -> u16 {
    u16::try_from(load).unwrap_or(NO_PARTNER)
}

fn set(claims: &mut [u16], a: usize, claim: u16) {
    if let Some(place) = claims.get_mut(a) {
        *place = claim;
    }
}

// Lets a load, and the partner that it claims, claim none.
fn part(claims: &mut [u16], a: usize) {
    if let Some(b) = claims.get(a).copied() {
        set(claims, usize::from(b), NO_PARTNER);
        set(claims, a, NO_PARTNER);
    }
}

// Lets two loads claim each other, and nobody else.
fn pair(claims: &mut [u16], a: usize, b: usize) {
    part(claims, a);
    part(claims, b);
    set(claims, a, claim(b));
    set(claims, b, claim(a));
}

impl Trial {
    // Audits claims on the links of a book and of the reference.
    fn audit_claims<L: Links>(
        &mut self,
        links: &L,
        plain: &PlainBook,
        claims: &[u16],
    ) -> Result<Result<Finding, Refused>> {
        let answer = audit(links, claims).map(finding_of);
        same("audit", answer, examine(plain, claims))?;
        self.counts.audit(answer);
        Ok(answer)
    }

    // Changes a few of the claims.
    fn damage(&mut self, plain: &PlainBook, claims: &mut [u16]) {
        let size = plain.size();
        for _ in 0..self.random.between(1, 3) {
            let a = self.random.below(size);
            let b = self.random.below(size);
            match self.random.below(5) {
                0 => part(claims, a),
                1 => set(claims, a, claim(b)),
                2 => set(claims, a, claim(size)),
                3 => pair(claims, a, b),
                _ => {
                    if let Some(x) = plain.next_linked(a, b) {
                        pair(claims, a, x);
                    }
                }
            }
        }
    }

    // Audits the partners of a board, which are sound, and the same damaged.
    pub fn audit_board<B: Book, R: Ranking>(
        &mut self,
        board: &Board<B, R>,
        pairing: &Pairing,
    ) -> Result<()> {
        let plain = pairing.book();
        let mut claims = Vec::new(self.alloc);
        for a in 0..plain.size() {
            let partner = board.partner(a)?;
            claims.push(partner.map_or(NO_PARTNER, claim))?;
        }
        let finding = self.audit_claims(board.book(), plain, &claims)?;
        same("audit of the board", finding, Ok(Finding::Sound))?;
        self.damage(plain, &mut claims);
        if self.random.chance(1) {
            claims.push(NO_PARTNER)?;
        }
        let _ = self.audit_claims(board.book(), plain, &claims)?;
        Ok(())
    }
}
