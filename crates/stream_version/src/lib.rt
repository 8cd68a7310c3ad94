// A version of a sound store is written as a stream: restored into an array of its own, and written from there.
#![tactic(auto)]

ghost use Rattle.std.specs.Prelude.{◌≡◌, ◌≤◌, length};
ghost use Rattle.model.specs.Calls.{restore_of};
ghost use Rattle.laws.specs.Stores.{Sound};
ghost use Rattle.stream.specs.Version.{write_restored, write_stream_of};
ghost use Rattle.stream_write.specs.Answers.{write_result};

use refusals::Refusal;

// The image that is restored goes to the lent array.
fn write_through(
    pool: &[u8],
    table: &[u32],
    till: u32,
    version: u32,
    image: &mut [u8],
    output: &mut [u8],
) -> Result<u32, Refusal>
    requires { Sound pool.now table.now × (length image.old ≤ 65536) }
    ensures { write_result result output.new ≡ write_restored (restore_of pool.now table.now till version image.old) output.old }
{
    let restored = restore::restore_version(pool, table, till, version, image)?;
    let end = restored.length as usize;
    stream_write::write_stream(&image[..end], output)
}

pub fn write_version(
    pool: &[u8],
    table: &[u32],
    till: u32,
    version: u32,
    output: &mut [u8],
) -> Result<u32, Refusal>
    requires { Sound pool.now table.now }
    ensures { write_result result output.new ≡ write_stream_of pool.now table.now till version output.old }
{
    let mut image = [0u8; 65536];
    write_through(pool, table, till, version, &mut image, output)
}
