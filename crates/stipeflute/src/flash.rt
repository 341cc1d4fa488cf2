// Where everything lies on flash, and the store.
ghost use Rattle.std.specs.Prelude.{◌≡◌};
ghost use Rattle.layout.specs.Layout.{layout_of, log_page_address, log_sector_count, sync_ledger_address, log_erase_sector_address};
ghost use Rattle.store.specs.Store.{read_told, after_read, program_told, after_program, erase_told, after_erase};
ghost use Rattle.reply.specs.Reply.{reply_of, row_reply, row_after, laid, number_row, option_row};
ghost use Rattle.reply_codec.specs.CodecRows.{layout_row};

use store::Flash;

pub fn stipeflute_storage_layout(capacity_bytes: u32, answer: &mut [u8]) -> u32
    ensures value { result ≡ row_reply 20 answer.old (laid layout_row (layout_of capacity_bytes)) }
    ensures lent { answer.new ≡ row_after 20 answer.old (laid layout_row (layout_of capacity_bytes)) }
{
    let made = layout::StorageLayout::new(capacity_bytes);
    reply::lay(made.map(reply_codec::layout_row), answer)
}

pub fn stipeflute_log_page_address(capacity_bytes: u32, page_index: u32, answer: &mut [u8]) -> u32
    ensures value { result ≡ row_reply 5 answer.old (laid option_row (log_page_address capacity_bytes page_index)) }
    ensures lent { answer.new ≡ row_after 5 answer.old (laid option_row (log_page_address capacity_bytes page_index)) }
{
    let address = layout::log_page_address(capacity_bytes, page_index);
    reply::lay(address.map(reply::option_row), answer)
}

pub fn stipeflute_log_sector_count(capacity_bytes: u32, answer: &mut [u8]) -> u32
    ensures value { result ≡ row_reply 4 answer.old (laid number_row (log_sector_count capacity_bytes)) }
    ensures lent { answer.new ≡ row_after 4 answer.old (laid number_row (log_sector_count capacity_bytes)) }
{
    let count = layout::log_sector_count(capacity_bytes);
    reply::lay(count.map(words::u32_bytes), answer)
}

pub fn stipeflute_sync_ledger_address(capacity_bytes: u32, answer: &mut [u8]) -> u32
    ensures value { result ≡ row_reply 4 answer.old (laid number_row (sync_ledger_address capacity_bytes)) }
    ensures lent { answer.new ≡ row_after 4 answer.old (laid number_row (sync_ledger_address capacity_bytes)) }
{
    let address = layout::sync_ledger_address(capacity_bytes);
    reply::lay(address.map(words::u32_bytes), answer)
}

pub fn stipeflute_log_erase_sector_address(capacity_bytes: u32, step: u32, answer: &mut [u8]) -> u32
    ensures value { result ≡ row_reply 5 answer.old (laid option_row (log_erase_sector_address capacity_bytes step)) }
    ensures lent { answer.new ≡ row_after 5 answer.old (laid option_row (log_erase_sector_address capacity_bytes step)) }
{
    let address = layout::log_erase_sector_address(capacity_bytes, step);
    reply::lay(address.map(reply::option_row), answer)
}

pub fn stipeflute_read(
    capacity_bytes: u32,
    image: &[u8],
    faults: &[u8],
    address: u32,
    output: &mut [u8],
) -> u32
    ensures value { result ≡ reply_of (read_told capacity_bytes image.now faults.now address output.old) }
    ensures lent { output.new ≡ after_read capacity_bytes image.now faults.now address output.old }
{
    let flash = Flash {
        capacity_bytes,
        image,
        faults,
    };
    reply::done(flash.read(address, output))
}

pub fn stipeflute_page_program(
    capacity_bytes: u32,
    image: &mut [u8],
    address: u32,
    target: &[u8],
    keep: &[u8],
    reply: u8,
) -> u32
    ensures value { result ≡ reply_of (program_told capacity_bytes image.old address target.now keep.now reply) }
    ensures lent { image.new ≡ after_program capacity_bytes image.old address target.now keep.now reply }
{
    reply::done(store::page_program(capacity_bytes, image, address, target, keep, reply))
}

pub fn stipeflute_erase_sector_4k(
    capacity_bytes: u32,
    image: &mut [u8],
    address: u32,
    reply: u8,
) -> u32
    ensures value { result ≡ reply_of (erase_told capacity_bytes image.old address reply) }
    ensures lent { image.new ≡ after_erase capacity_bytes image.old address reply }
{
    reply::done(store::erase_sector_4k(capacity_bytes, image, address, reply))
}
