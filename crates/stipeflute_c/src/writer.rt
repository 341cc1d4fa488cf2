// The writer, by a script of its calls.
ghost use Rattle.std.specs.Prelude.{◌≡◌};
ghost use Rattle.rig.specs.Rig.{play_told, after_play, output_after};
ghost use Rattle.reply.specs.Reply.{reply_of};

use stipeflute::writer;

#[unsafe(no_mangle)]
pub extern "C" fn stipeflute_rig(
    capacity_bytes: u32,
    image: &mut [u8],
    script: &[u8],
    output: &mut [u8],
) -> u32
    ensures value { result ≡ reply_of (play_told capacity_bytes image.old script.now output.old) }
    ensures image_after { image.new ≡ after_play capacity_bytes image.old script.now output.old }
    ensures output_after { output.new ≡ output_after capacity_bytes image.old script.now output.old }
{
    writer::stipeflute_rig(capacity_bytes, image, script, output)
}
