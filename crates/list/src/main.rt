// The list program: reads a problem from standard input and prints its frontier list, or why it is refused.
#![tactic(auto)]

ghost use Rattle.std.specs.Prelude.{◌≤◌, length, IfOk};

use model::Refusal;
use problem::Problem;
use std::io;
use std::io::{ErrorKind, Read};

// The costs of one point, a space behind each.
fn print_costs(rt: &impl Print, costs: &[u32]) -> io::Result<()> {
    for cost in costs {
        print!(rt; "{cost} ")?;
    }
    Ok(())
}

// The values of one choice, a space before each.
fn print_choice(rt: &impl Print, choice: &[u8]) -> io::Result<()> {
    for value in choice {
        print!(rt; " {value}")?;
    }
    Ok(())
}

// The points, a line each. What the buffers do not hold is not printed.
fn print_points(
    rt: &impl Print,
    costs: &[u32],
    choices: &[u8],
    count: usize,
    p: usize,
    n: usize,
) -> io::Result<()>
    requires { (1 ≤ p) × (1 ≤ n) }
{
    for (cost, choice) in costs
        .chunks_exact(p)
        .zip(choices.chunks_exact(n))
        .take(count)
    {
        print_costs(rt, cost)?;
        print!(rt; ":")?;
        print_choice(rt, choice)?;
        println!(rt)?;
    }
    Ok(())
}

// A problem, and how many points its frontier list has, which stands in the buffers.
fn solve(problem: &[u8], costs: &mut [u32], choices: &mut [u8]) -> Result<(Problem, u32), Refusal>
    ensures { IfOk result (λ r. (1 ≤ (r.0).head.objectives) × (1 ≤ (r.0).head.variables)) }
{
    let mut work = [0u32; 8192];
    let q = problem::read_problem(problem)?;
    let count = frontier::solve_problem(problem, costs, choices, &mut work)?;
    Ok((q, count))
}

// The list of a problem with room for 64 points, or why it is refused.
fn print_list(rt: &impl Print, problem: &[u8]) -> io::Result<()> {
    let mut costs = [0u32; 256];
    let mut choices = [0u8; 1536];
    match solve(problem, &mut costs, &mut choices) {
        Ok((q, count)) => {
            let n = q.head.variables as usize;
            let p = q.head.objectives as usize;
            println!(rt; "points {count} objectives {p} variables {n}")?;
            print_points(rt, &costs, &choices, count as usize, p, n)
        }
        Err(refusal) => {
            let number = refusal.reason.number();
            let place = refusal.place;
            println!(rt; "refused {number} at {place}")
        }
    }
}

// Reads until the bytes are full or the input ends, and answers how many were read.
fn read_full(input: &mut impl Read, bytes: &mut [u8]) -> io::Result<usize>
    ensures { IfOk result (λ count. count ≤ length bytes.old) }
{
    let mut count: usize = 0;
    for _ in 0..u64::MAX {
        if count == bytes.len() {
            break;
        }
        match input.read(&mut bytes[count..]) {
            Ok(0) => break,
            Ok(more) => count += more,
            Err(error) => {
                if error.kind() != ErrorKind::Interrupted {
                    return Err(error);
                }
            }
        }
    }
    Ok(count)
}

fn main(rt: HostRuntime) -> io::Result<()> {
    // one byte more than a problem may have, so that number 1 can be told
    let mut bytes = [0u8; 60001];
    let count = read_full(&mut rt.stdin(), &mut bytes)?;
    print_list(&rt, &bytes[..count])
}
