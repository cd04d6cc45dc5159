// The content of a program assignment, from its highest bit: beds, spatial formats, Dynamic objects, reserved data.
ghost use Rattle.std.specs.Prelude.{◌≡◌, replicate};
ghost use Rattle.bits.specs.Say.{ReadsAs};
ghost use Rattle.standard.specs.Assignment as paper;
ghost use Rattle.standard.specs.Tree.{isf, dynamic};
ghost use Rattle.assignment.specs.Kinds.{Adds};

use crate::beds::parse_beds;
use crate::contexts;
use crate::kinds::Kinds;
use bits::{BitCursor, Refusal, is_set};
use rows::row::Kind;

// The bits of a content description.
const BEDS: usize = 3;

const ISFS: usize = 2;

const DYNAMICS: usize = 1;

const RESERVED_DATA: usize = 0;

const ISF_COUNTS: [usize; 6] = [4, 8, 10, 14, 15, 30];

// The count goes up to 153 + 30 + 159, whatever the object count: it is tested last.
pub fn parse_contents(bits: &mut BitCursor, kinds: &mut Kinds) -> Result<(), Refusal>
    requires { kinds.old.count ≡ 0 }
    ensures { Adds paper.contents bits.old kinds.old result bits.new kinds.new }
{
    let content = bits.read(4, contexts::CONTENT_DESCRIPTION)?;
    if is_set(content, BEDS) {
        parse_beds(bits, kinds)?;
    }
    if is_set(content, ISFS) {
        kinds.extend(Kind::Isf, read_isf_count(bits)?);
    }
    if is_set(content, DYNAMICS) {
        kinds.extend(Kind::Dynamic, read_dynamic_count(bits)?);
    }
    if is_set(content, RESERVED_DATA) {
        bits.skip_bytes(
            contexts::RESERVED_DATA_SIZE,
            contexts::PROGRAM_ASSIGNMENT_RESERVED_DATA,
        )?;
    }
    Ok(())
}

fn read_isf_count(bits: &mut BitCursor) -> Result<usize, Refusal>
    ensures { ReadsAs (λ n. replicate n isf) paper.isfs bits.old result bits.new }
{
    let context = contexts::INTERMEDIATE_SPATIAL_FORMAT_INDEX;
    let at = bits.position;
    let format = bits.read(3, context)? as usize;
    ISF_COUNTS
        .get(format)
        .copied()
        .ok_or(Refusal::invalid(context, at))
}

fn read_dynamic_count(bits: &mut BitCursor) -> Result<usize, Refusal>
    ensures { ReadsAs (λ n. replicate n dynamic) paper.dynamics bits.old result bits.new }
{
    let coded = bits.read_extended(
        5,
        contexts::DYNAMIC_OBJECT_COUNT,
        7,
        contexts::EXTENDED_DYNAMIC_OBJECT_COUNT,
    )?;
    Ok(coded as usize + 1)
}
