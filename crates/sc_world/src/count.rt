// What is counted of a run.
ghost use Rattle.std.specs.Prelude.{◌≡◌, ◌+◌, IfOk};

use sc_base::NoMemory;

/// How many steps were done since the call of the entry went out, and how many turns they took.
#[derive(Clone, Copy)]
pub struct Count {
    pub steps: u64,
    pub turns: u64,
}

fn sum(a: u64, b: u64) -> Result<u64, NoMemory>
    ensures { IfOk result (λ n. n ≡ a + b) }
{
    match a.checked_add(b) {
        Some(n) => Ok(n),
        None => Err(NoMemory),
    }
}

/// One step more, which touched so many bytes.
pub fn counted(count: Count, bytes: u64) -> Result<Count, NoMemory>
    ensures { IfOk result (λ c. c ≡ record { steps = count.steps + 1; turns = count.turns + (1 + bytes) }) }
{
    let steps = sum(count.steps, 1)?;
    let took = sum(1, bytes)?;
    let turns = sum(count.turns, took)?;
    Ok(Count { steps, turns })
}
