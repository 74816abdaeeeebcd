ghost use Rattle.std.specs.Prelude.{◌≡◌, ◌∷◌, ◌++◌, [], IfOk, OnOk, Ok, map, decimal};
ghost use Rattle.gp_text.specs.Spelling.{after_words, spelling};
ghost use Rattle.gp_shard.specs.Laws.{ShardsReadAgain};
ghost use Rattle.gp_shard.specs.Reading.{shard_of_text};
ghost use Rattle.gp_shard.specs.Shard.{IsShard, shard_text};

use crate::shard::Shard;
use gp_base::Row;
use gp_text::{one_spelling, plain_words, print_u64, reads_again};
use std::alloc::{AllocError, Global};

/// The text of the file of a part.
pub fn print_shard(alloc: Global, shard: &Shard) -> Result<Row<u8>, AllocError>
    requires { IsShard shard.now }
    ensures text { IfOk result (λ bytes. bytes ≡ shard_text shard.now) }
    ensures again { IfOk result (λ bytes. shard_of_text bytes ≡ Ok shard.now) }
{
    shards_read_again();
    let mut out = Vec::new(alloc);
    out.extend_from_slice(b"gpshard 1\n")?;
    put_line(&mut out, b"part", &[shard.part, shard.parts])?;
    put_line(
        &mut out,
        b"windows",
        &[shard.before + 1, shard.count, shard.epochs],
    )?;
    Ok(Row::from_vec(out))
}

/// The text of a part is read as the part.
pub fn shards_read_again()
    ensures { ShardsReadAgain }
{
    one_spelling();
    plain_words();
    reads_again();
}

#[tactic(auto, using(gp_text::specs::SpellingLaws::line_put))]
fn put_line(out: &mut Vec<u8>, keyword: &[u8], numbers: &[u32]) -> Result<(), AllocError>
    ensures { OnOk result (out.new.items ≡ out.old.items ++ spelling ((keyword.now ∷ map decimal numbers.now) ∷ [])) }
{
    out.extend_from_slice(keyword)?;
    put_numbers(out, numbers)?;
    out.extend_from_slice(b"\n")
}

fn put_numbers(out: &mut Vec<u8>, numbers: &[u32]) -> Result<(), AllocError>
    ensures { OnOk result (out.new.items ≡ out.old.items ++ after_words (map decimal numbers.now)) }
{
    for number in numbers {
        out.extend_from_slice(b" ")?;
        print_u64(out, u64::from(*number))?;
    }
    Ok(())
}
