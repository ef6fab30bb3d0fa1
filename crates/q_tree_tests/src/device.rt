//! The refusals of the tree.
use q_device::Refusal;
use std::alloc::Global;
use std::test::Fail;

// A refusal, its number, and its text.
const REFUSALS: [(Refusal, u8, &str); 13] = [
    (Refusal::NoParent, 10, "refused 10 NoParent"),
    (Refusal::Exists, 11, "refused 11 Exists"),
    (Refusal::NoQdisc, 12, "refused 12 NoQdisc"),
    (Refusal::HandleTaken, 13, "refused 13 HandleTaken"),
    (Refusal::NotClassful, 14, "refused 14 NotClassful"),
    (Refusal::NoClass, 15, "refused 15 NoClass"),
    (Refusal::Busy, 16, "refused 16 Busy"),
    (Refusal::CannotChange, 17, "refused 17 CannotChange"),
    (Refusal::TooDeep, 18, "refused 18 TooDeep"),
    (Refusal::TooMany, 19, "refused 19 TooMany"),
    (Refusal::SmallBurst, 20, "refused 20 SmallBurst"),
    (Refusal::NoFilter, 21, "refused 21 NoFilter"),
    (Refusal::Memory, 90, "refused 90 Memory"),
];

fn is_shown(alloc: Global, refusal: Refusal, number: u8, text: &str) -> Result<bool, Fail> {
    let shown = format!(in alloc; "{refusal}")?;
    Ok(shown.as_str() == text && refusal.number() == number && text.ends_with(refusal.name()))
}

#[test]
fn refusals_are_shown_with_number_and_name(rt: HostRuntime) -> Result<(), Fail> {
    for (refusal, number, text) in &REFUSALS {
        if !is_shown(rt.alloc(), *refusal, *number, text)? {
            return Err(Fail::new(format_args!("{refusal:?}")));
        }
    }
    Ok(())
}
