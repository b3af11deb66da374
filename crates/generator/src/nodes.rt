// The nodes of the file, each with its edges, from 0 upward.
ghost use Rattle.std.specs.Prelude.{◌≡◌, ◌*◌, ◌≤◌, ◌<◌, length};
ghost use mathlib.Core.List.{map, flatten};
ghost use Rattle.sets.specs.Sets.{span};
ghost use Rattle.files.specs.Limits.{part_words};
ghost use Rattle.output.specs.Writer.{Writes};
ghost use Rattle.draws.specs.Draws.{after, drawn};
ghost use Rattle.generator.specs.Generate.{node_drawn, spent};
ghost use Rattle.generator.specs.Nodes.{node_from};

use draws::generator::Generator;
use edge_draws::edges::{Counts, MOST_EDGES, gather};
use files::limits::PART_WORDS;
use files::make::node_word;
use output::writer::push;

// The words, behind `start` others; hands back how many there are then.
fn write_words(words: &[u32], out: &mut [u8], start: usize) -> usize
    requires { 4 * part_words ≤ length out.old }
    ensures { Writes part_words (length out.old) out.old start out.new result words.now }
{
    let mut count = start;
    for word in words {
        count = push(out, PART_WORDS, count, *word);
    }
    count
}

// Node x with its edges, behind `start` words.
fn write_node(
    generator: &mut Generator,
    counts: Counts,
    x: u32,
    out: &mut [u8],
    start: usize,
) -> usize
    requires { (x < 65536) × (4 * part_words ≤ length out.old) }
    ensures { Writes part_words (length out.old) out.old start out.new result (node_from (drawn generator.old.state) counts.nodes counts.edges x)
        × (generator.new.state ≡ after (2 * counts.edges) generator.old.state) }
{
    let mut words = [0u32; MOST_EDGES];
    let different = gather(generator, counts, &mut words);
    let first = x == 0;
    let count = push(out, PART_WORDS, start, node_word(x, first, first, false));
    write_words(&words[..different], out, count)
}

// All nodes.
pub fn write_nodes(generator: &mut Generator, counts: Counts, out: &mut [u8], start: usize) -> usize
    requires { 4 * part_words ≤ length out.old }
    ensures { Writes part_words (length out.old) out.old start out.new result (flatten (map (node_drawn (drawn generator.old.state) counts.nodes counts.edges) (span 0 counts.nodes)))
        × (generator.new.state ≡ spent generator.old.state counts.nodes counts.edges) }
{
    let mut count = start;
    for x in 0..counts.nodes {
        count = write_node(generator, counts, x, out, count);
    }
    count
}
