// The assembler, by a script of its calls.
ghost use Rattle.std.specs.Prelude.{◌≡◌};
ghost use Rattle.reply.specs.Reply.{row_reply, row_after, laid};
ghost use Rattle.reply_assembler.specs.Script.{played_row, last_played};

pub fn stipeflute_assemble(script: &[u8], answer: &mut [u8]) -> u32
    ensures value { result ≡ row_reply 261 answer.old (laid played_row (last_played script.now)) }
    ensures lent { answer.new ≡ row_after 261 answer.old (laid played_row (last_played script.now)) }
{
    let played = reply_assembler::last_played(script);
    reply::lay(played.map(reply_assembler::played_row), answer)
}
