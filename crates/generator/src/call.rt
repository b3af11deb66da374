// The call of the load bench: from a lent state, a node count and an edge count a whole file, and the state after the last draw.
ghost use Rattle.std.specs.Prelude.{◌≡◌, [], ◌∷◌, ◌*◌, ◌≤◌, length};
ghost use Rattle.files.specs.Refusal.{number};
ghost use Rattle.files.specs.Outcome.{left, left_lent, lent_by, leaves_lent};
ghost use Rattle.files.specs.Limits.{part_words};
ghost use Rattle.output.specs.Writer.{Filed};
ghost use Rattle.output.specs.Frame.{also, Checked, Responds};
ghost use Rattle.draws.specs.Draws.{drawn};
ghost use Rattle.generator.specs.Generate.{generated, spent, bounds_check, generate_call};

use crate::nodes::write_nodes;
use draws::generator::Generator;
use edge_draws::edges::{Counts, MOST_EDGES};
use files::buffer::clear;
use files::limits::PART_WORDS;
use files::refusal::{Refusal, ensure};
use files::refuse::check_room;
use output::close::close;
use output::settle::settle;

const NODE_BOUND: u32 = 256;

const EDGE_BOUND: u32 = MOST_EDGES as u32;

// 11: a count outside its bounds.
fn check_bounds(nodes: u32, edges: u32) -> Result<(), Refusal>
    ensures { number result ≡ bounds_check nodes edges }
{
    let bounded = (1 <= nodes) & (nodes <= NODE_BOUND) & (1 <= edges) & (edges <= EDGE_BOUND);
    ensure(bounded, Refusal::WrongCounts)
}

// The checks in their order: the buffers, the counts.
fn check(nodes: u32, edges: u32, out: usize, work: usize) -> Result<(), Refusal>
    ensures { Checked part_words out work (also (bounds_check nodes edges) ∷ []) (number result) }
{
    check_room(PART_WORDS, out, work)?;
    check_bounds(nodes, edges)
}

// Writes the file. It is not over its limit, so it is not refused.
fn write(generator: &mut Generator, counts: Counts, out: &mut [u8]) -> Result<(), Refusal>
    requires { 4 * part_words ≤ length out.old }
    ensures { Filed part_words (length out.old) (generated (drawn generator.old.state) counts.nodes counts.edges) out.new (number result)
        × (generator.new.state ≡ spent generator.old.state counts.nodes counts.edges) }
{
    clear(out);
    let count = write_nodes(generator, counts, out, 1);
    close(1, 0, 0, PART_WORDS, count, out)
}

// The file, or the refusal of a check, which leaves the state unmoved.
fn answer(
    generator: &mut Generator,
    nodes: u32,
    edges: u32,
    out: &mut [u8],
    work: usize,
) -> Result<(), Refusal>
    ensures { Responds (generate_call (length out.old) work generator.old.state nodes edges) (length out.old) out.new (number result)
        × (generator.new.state ≡ lent_by (generate_call (length out.old) work generator.old.state nodes edges) generator.old.state (spent generator.old.state nodes edges)) }
{
    check(nodes, edges, out.len(), work)?;
    write(generator, Counts { nodes, edges }, out)
}

// Generates a whole file from the lent state.
pub fn generate(state: &mut u32, nodes: u32, edges: u32, out: &mut [u8], work: &mut [u8]) -> u32
    ensures { left_lent state.new (left result out.new work.new)
        ≡ leaves_lent (generate_call (length out.old) (length work.old) state.old nodes edges)
        state.old (spent state.old nodes edges) (length out.old) (length work.old) }
{
    let mut generator = Generator { state: *state };
    let outcome = answer(&mut generator, nodes, edges, out, work.len());
    *state = generator.state;
    settle(outcome, out, work)
}
