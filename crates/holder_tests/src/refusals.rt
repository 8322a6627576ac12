// The numbers of the refusals.
use links::Refusal;

#[test]
fn numbers(rt: HostRuntime) {
    let all = [
        Refusal::SizeOutOfRange,
        Refusal::LimitOutOfRange,
        Refusal::WrongLength,
        Refusal::NoSuchLoad,
        Refusal::SameLoad,
        Refusal::AlreadyLinked,
        Refusal::NotLinked,
        Refusal::Barred,
        Refusal::LoadFull,
        Refusal::BookFull,
        Refusal::NoPartner,
        Refusal::UnknownCommand,
        Refusal::CutShort,
        Refusal::OutputTooShort,
        Refusal::BadEntry(3),
    ];
    for (i, refusal) in all.iter().enumerate() {
        assert_eq!(rt; usize::from(refusal.number()), i + 1);
    }
}
