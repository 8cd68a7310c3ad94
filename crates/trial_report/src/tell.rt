// What the trial prints.
use crate::counts;
use std::io;

// Each counter on a line of its own, after its words.
fn lines(rt: &impl Print, counts: &[u64], named: &[(&str, usize)]) -> io::Result<()> {
    for (words, at) in named {
        println!(rt; "{words}: {}", counts::count_at(counts, *at))?;
    }
    Ok(())
}

fn accepted(rt: &impl Print, counts: &[u64]) -> io::Result<()> {
    let named = [
        ("calls", counts::CALLS),
        ("table lengths accepted", counts::LENGTHS),
        ("lay outs accepted", counts::LAYOUTS),
        ("backups accepted", counts::BACKUPS),
        ("restores accepted", counts::RESTORES),
        ("retires accepted", counts::RETIRES),
        ("listings accepted", counts::LISTINGS),
        ("tallies accepted", counts::TALLIES),
        ("newest retired, an older one held", counts::NEWEST),
        ("retired from between two held", counts::BETWEEN),
        ("first messages accepted", counts::OFFERS),
        ("segments had", counts::HAD),
        ("segments sent", counts::SENT),
        ("closings accepted", counts::CLOSINGS),
        ("images taken at closing", counts::TAKEN),
        ("images refused at closing", counts::TURNED_AWAY),
        ("rights set", counts::RIGHTS),
    ];
    lines(rt, counts, &named)
}

// By the page's numbers, those that the trial meets.
fn refusals(rt: &impl Print, counts: &[u64]) -> io::Result<()> {
    for n in [1, 2, 3, 4, 5, 10, 11, 12, 14, 16, 17, 18, 19, 20, 22, 23] {
        println!(rt; "refused with {n}: {}", counts::count_at(counts, n))?;
    }
    Ok(())
}

fn verdict(rt: &impl Print, counts: &[u64]) -> io::Result<()> {
    let named = [
        ("longest chain", counts::CHAIN),
        ("versions compared", counts::VERSIONS),
        ("bytes compared", counts::BYTES),
        ("wrong bytes", counts::WRONG_BYTES),
        ("wrong answers", counts::WRONG_ANSWERS),
        ("buffers altered by a refusal", counts::ALTERED),
    ];
    lines(rt, counts, &named)
}

pub fn report(rt: &impl Print, counts: &[u64]) -> io::Result<()> {
    accepted(rt, counts)?;
    refusals(rt, counts)?;
    verdict(rt, counts)
}
