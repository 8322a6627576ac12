// Random boards, each played beside the reference.
use crate::comparing::{same, same_board, same_book};
use crate::scripts;
use crate::setting::{Classes, Filters, Kind, RANKINGS, RankingKind, Setting};
use crate::trial::Trial;
use anyhow::{Context, Result};
use board::Board;
use book_kinds::{BookKind, each_kind_of_book};
use class_filter::ClassFilter;
use links::Book;
use ranking::detour::ByDetour;
use ranking::{ByNumber, Ranking};
use reference::calls::{Answer, Call};
use reference::pairing::Pairing;
use reference::plain_book::PlainBook;

// Makes a call on a board.
fn make<B: Book, R: Ranking>(board: &mut Board<B, R>, call: Call) -> Answer {
    let granted = match call {
        Call::Link(a, b) => board.link(usize::from(a), usize::from(b)),
        Call::Unlink(a, b) => board.unlink(usize::from(a), usize::from(b)),
        Call::Withdraw(a) => board.withdraw(usize::from(a)),
        Call::Depart(a) => board.depart(usize::from(a)),
        Call::Partner(a) => return board.partner(usize::from(a)),
    };
    granted.map(|()| None)
}

// Plays a setting on one kind of book, each time in new memory that is not clear.
macro_rules! play_kind {
    ($kind:ty, ($trial:ident, $setting:ident)) => {
        let need = <$kind as BookKind>::need($setting.shape);
        for ranking in RANKINGS {
            let some = $trial.random.pick(&[Filters::One, Filters::Two]);
            for filters in [Filters::None, some.unwrap_or(Filters::Two)] {
                let kind = Kind { filters, ranking };
                let mut memory = vec![in $trial.alloc; <$kind as BookKind>::noise(); need]?;
                $trial
                    .play_setting::<$kind>($setting, kind, &mut memory)
                    .context(format_args!("{}, {kind:?}", <$kind as BookKind>::NAME))?;
            }
        }
    };
}

impl Trial {
    // Makes a call on a board and on the reference, and holds all that can be asked then.
    pub fn play<B: Book, R: Ranking>(
        &mut self,
        board: &mut Board<B, R>,
        pairing: &mut Pairing,
        call: Call,
    ) -> Result<()> {
        let answer = make(board, call);
        self.counts.call();
        self.counts.answer(&answer);
        same("answer", answer, pairing.make(call)?)?;
        same_board(board, pairing)?;
        self.audit_board(board, pairing)
    }

    // Plays a board to its end.
    fn play_board<B: Book + Drop, R: Ranking + Drop>(
        &mut self,
        setting: &Setting,
        book: B,
        ranking: R,
        mut pairing: Pairing,
    ) -> Result<()> {
        let mut board = Board::open(book, ranking);
        same_board(&board, &pairing).context("at the opening")?;
        for &call in &setting.script {
            self.play(&mut board, &mut pairing, call)
                .context(format_args!("{call:?} of the script"))?;
        }
        for n in 0..setting.calls {
            let call = setting.draw_call(&mut self.random);
            self.play(&mut board, &mut pairing, call)
                .context(format_args!("call {n}, {call:?}"))?;
        }
        self.counts.board(pairing.repairs());
        Ok(())
    }

    fn play_book<B: Book + Drop>(
        &mut self,
        setting: &Setting,
        ranking: RankingKind,
        book: B,
        plain: PlainBook,
    ) -> Result<()> {
        let order = setting.order(self.alloc, ranking)?;
        let pairing = Pairing::open(self.alloc, plain, order)?;
        match ranking {
            RankingKind::ByNumber => self.play_board(setting, book, ByNumber, pairing),
            RankingKind::ByDetour => {
                let ranking = ByDetour::new(&setting.places);
                self.play_board(setting, book, ranking, pairing)
            }
        }
    }

    // Adds random links to a book and to the reference's, some of which are refused, and removes
    // some.
    fn bring<B: Book>(
        &mut self,
        setting: &Setting,
        book: &mut B,
        plain: &mut PlainBook,
    ) -> Result<()> {
        for _ in 0..setting.brought {
            let (a, b) = setting.draw_two(&mut self.random);
            let (answer, expected) = if self.random.chance(90) {
                (book.add(a, b), plain.add(a, b)?)
            } else {
                (book.remove(a, b), plain.remove(a, b))
            };
            self.counts.answer(&answer);
            same("answer of the book", answer, expected)?;
        }
        same_book(book, plain)
    }

    // Puts a filter on a book, bars the same pairs in the reference's, and brings links through it.
    fn filter<B: Book + Drop>(
        &mut self,
        setting: &Setting,
        classes: &Classes,
        book: B,
        plain: &mut PlainBook,
    ) -> Result<ClassFilter<B>> {
        let mut filtered = ClassFilter::new(book, &classes.of_loads, classes.bars);
        plain.bar_classes(&classes.of_loads, classes.bars)?;
        self.bring(setting, &mut filtered, plain)?;
        Ok(filtered)
    }

    // Brings links to a book without links, and plays a board on it, or on the filters that stand
    // on it.
    fn play_on<B: Book + Drop>(
        &mut self,
        setting: &Setting,
        kind: Kind,
        mut book: B,
        mut plain: PlainBook,
    ) -> Result<()> {
        self.bring(setting, &mut book, &mut plain)?;
        self.counts.filters(kind.filters);
        match kind.filters {
            Filters::None => self.play_book(setting, kind.ranking, book, plain),
            Filters::One => {
                let lower = self.filter(setting, &setting.lower, book, &mut plain)?;
                self.play_book(setting, kind.ranking, lower, plain)
            }
            Filters::Two => {
                let lower = self.filter(setting, &setting.lower, book, &mut plain)?;
                let upper = self.filter(setting, &setting.upper, lower, &mut plain)?;
                self.play_book(setting, kind.ranking, upper, plain)
            }
        }
    }

    // Makes a book of a kind and the reference's, and plays a board on it.
    fn play_setting<'a, K: BookKind<'a>>(
        &mut self,
        setting: &Setting,
        kind: Kind,
        memory: &'a mut [K::Cell],
    ) -> Result<()> {
        let shape = setting.shape;
        let spare = K::fresh_spare(shape);
        let plain = PlainBook::new(self.alloc, shape.size, spare, shape.limit)?;
        self.play_on(setting, kind, K::make(shape, memory), plain)
    }

    // The same on every kind of book, by every kind of ranking, without filters and with one or
    // two.
    fn play_everywhere(&mut self, setting: &Setting) -> Result<()> {
        each_kind_of_book!(play_kind(self, setting));
        Ok(())
    }

    // So many random settings with sizes within these.
    pub fn random_boards(&mut self, number: usize, low: usize, high: usize) -> Result<()> {
        for n in 0..number {
            let size = self.random.between(low, high);
            let setting = Setting::draw(self.alloc, &mut self.random, size)?;
            self.play_everywhere(&setting)
                .context(format_args!("board {n} of {size} loads"))?;
        }
        Ok(())
    }

    // Six loads, linked in every order.
    pub fn six_loads(&mut self) -> Result<()> {
        for number in 0..720 {
            let script = scripts::six_loads(self.alloc, number)?;
            let setting = Setting::scripted(self.alloc, &mut self.random, 6, 8, script)?;
            self.play_everywhere(&setting)
                .context(format_args!("six loads in order {number}"))?;
        }
        Ok(())
    }

    // So many boards with a load that has many links.
    pub fn hubs(&mut self, number: usize) -> Result<()> {
        for n in 0..number {
            let size = self.random.pick(&[12, 14, 16]).unwrap_or(12);
            let script = scripts::hub(self.alloc, &mut self.random, size)?;
            let limit = self.random.pick(&[18, 24, 28, 32]).unwrap_or(18);
            let mut setting = Setting::scripted(
                self.alloc,
                &mut self.random,
                usize::from(size),
                limit,
                script,
            )?;
            setting.calls = 10;
            self.play_everywhere(&setting)
                .context(format_args!("hub {n}"))?;
        }
        Ok(())
    }
}
