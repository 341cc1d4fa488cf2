// A NOR store on a lent image, with one fault byte for each 256 bytes: reads, programs and sector erases.
// A caller can rely on it that a refused call alters no lent byte, but for what a failing program itself stored, and
// that programs and erases look at no fault byte.
#![tactic(auto, using(crate::proofs::Stores::ends), unfolding(crate::specs::Store::bytes_read, crate::specs::Store::read_of, crate::specs::Store::program_stores, crate::specs::Store::erase_stores))]

ghost use Rattle.std.specs.Prelude.{◌≡◌, ◌+◌, ◌≤◌, length, get_or};
ghost use Rattle.laws.specs.Answers.{gives, told};
ghost use Rattle.store.specs.Store.{on_image, on_lengths, on_store, on_mask, fault_at, in_one_page, is_sector, mask, programmed};
ghost use Rattle.store.specs.Store.{read_told, after_read, program_told, after_program, erase_told, after_erase};

use laws::Refusal;

pub const PAGE_LEN: usize = 256;

pub const SECTOR_LEN: usize = 4096;

// What is read of a flash: its image, and one fault byte for each 256 bytes of it. A call that writes is lent the image alone to be written,
// and a keep mask, so it is none of the methods.
#[derive(Clone, Copy)]
pub struct Flash<'a> {
    pub capacity_bytes: u32,
    pub image: &'a [u8],
    pub faults: &'a [u8],
}

// Whether an image has the length of its capacity: refused 5, then 17.
#[tactic(auto, using(laws::proofs::Chain::chain), unfolding(crate::specs::Store::on_image))]
pub fn checked_image(capacity_bytes: u32, image_len: usize) -> Result<(), Refusal>
    ensures { told result ≡ on_image capacity_bytes image_len (gives tt) }
{
    layout::checked(capacity_bytes)?;
    if image_len != capacity_bytes as usize {
        return Err(Refusal::BadLength);
    }
    Ok(())
}

// The same with the length of one more slice that is lent with it.
#[tactic(auto, using(crate::proofs::Checks::tested), unfolding(crate::specs::Store::on_lengths))]
fn checked_lengths(
    capacity_bytes: u32,
    image_len: usize,
    other_len: usize,
    wanted: usize,
) -> Result<(), Refusal>
    ensures { told result ≡ on_lengths capacity_bytes image_len other_len wanted (gives tt) }
{
    checked_image(capacity_bytes, image_len)?;
    if other_len != wanted {
        return Err(Refusal::BadLength);
    }
    Ok(())
}

// The same with a fault byte for each 256 bytes.
pub fn checked_store(
    capacity_bytes: u32,
    image_len: usize,
    faults_len: usize,
) -> Result<(), Refusal>
    ensures { told result ≡ on_store capacity_bytes image_len faults_len (gives tt) }
{
    checked_lengths(
        capacity_bytes,
        image_len,
        faults_len,
        (capacity_bytes as usize) / PAGE_LEN,
    )
}

// The same with a keep mask of 256 bytes.
pub fn checked_mask(capacity_bytes: u32, image_len: usize, keep_len: usize) -> Result<(), Refusal>
    ensures { told result ≡ on_mask capacity_bytes image_len keep_len (gives tt) }
{
    checked_lengths(capacity_bytes, image_len, keep_len, PAGE_LEN)
}

// Whether bytes from an address on cross neither a page nor the image's end.
#[tactic(auto, unfolding(crate::specs::Store::in_one_page))]
fn in_one_page(capacity_bytes: u32, address: u32, len: usize) -> bool
    ensures { result ≡ in_one_page capacity_bytes address len }
{
    let capacity = capacity_bytes as usize;
    let at = address as usize;
    at <= capacity && len <= capacity - at && at % PAGE_LEN + len <= PAGE_LEN
}

// Whether an address is that of a sector of the image.
#[tactic(auto, unfolding(crate::specs::Store::is_sector))]
fn is_sector(capacity_bytes: u32, address: u32) -> bool
    ensures { result ≡ is_sector capacity_bytes address }
{
    address < capacity_bytes && address % 4096 == 0
}

// Bytes copied one after another. The library's copy becomes a call of C's memmove where a read has any length.
fn copy_bytes(output: &mut [u8], bytes: &[u8])
    requires { length bytes.now ≡ length output.old }
    ensures { output.new ≡ bytes.now }
{
    for (i, byte) in bytes.iter().enumerate() {
        output[i] = *byte;
    }
}

impl Flash<'_> {
    // Whether image and fault bytes have the lengths of the capacity.
    pub fn checked(&self) -> Result<(), Refusal>
        ensures { told result ≡ on_store self.now.capacity_bytes (length self.now.image.now) (length self.now.faults.now) (gives tt) }
    {
        checked_store(self.capacity_bytes, self.image.len(), self.faults.len())
    }

    // The fault byte that stands for the byte at an address, 0 past the end.
    pub fn fault_at(&self, address: u32) -> u8
        ensures { result ≡ fault_at self.now.faults.now address }
    {
        words::byte_at(self.faults, (address / 256) as usize)
    }

    // Bytes of one page, from an address on, read into `output`; a fault byte for them is refused 6.
    pub fn read(&self, address: u32, output: &mut [u8]) -> Result<(), Refusal>
        ensures value { told result ≡ read_told self.now.capacity_bytes self.now.image.now self.now.faults.now address output.old }
        ensures lent { output.new ≡ after_read self.now.capacity_bytes self.now.image.now self.now.faults.now address output.old }
    {
        self.checked()?;
        if !in_one_page(self.capacity_bytes, address, output.len()) {
            return Err(Refusal::BadLength);
        }
        let fault = self.fault_at(address);
        if fault != 0 {
            return Err(Refusal::Device(fault));
        }
        let at = address as usize;
        let end = at + output.len();
        copy_bytes(output, &self.image[at..end]);
        Ok(())
    }
}

// The mask's byte for target byte i: 0 where the program succeeds.
fn kept(keep: &[u8], i: usize, succeeds: bool) -> u8
    ensures { result ≡ get_or (mask succeeds keep.now) i 0 }
{
    if succeeds { 0 } else { words::byte_at(keep, i) }
}

// Bytes programmed from an address on, each byte old AND (target OR keep). By index: three slices go side by side, and a mask reads as 0
// past its end.
fn program_bytes(image: &mut [u8], at: usize, target: &[u8], keep: &[u8], succeeds: bool)
    requires { at + length target.now ≤ length image.old }
    ensures { image.new ≡ programmed image.old at target.now (mask succeeds keep.now) }
{
    for i in 0..target.len() {
        let keep_byte = kept(keep, i, succeeds);
        image[at + i] &= target[i] | keep_byte;
    }
}

// A program of bytes inside one page. `reply` is the device's: 0 succeeds, and the mask keeps nothing; another is its
// fault, refused 6 after the mask's bits were kept. Mask byte i belongs to target byte i, wherever in the page it goes.
pub fn page_program(
    capacity_bytes: u32,
    image: &mut [u8],
    address: u32,
    target: &[u8],
    keep: &[u8],
    reply: u8,
) -> Result<(), Refusal>
    ensures value { told result ≡ program_told capacity_bytes image.old address target.now keep.now reply }
    ensures lent { image.new ≡ after_program capacity_bytes image.old address target.now keep.now reply }
{
    checked_mask(capacity_bytes, image.len(), keep.len())?;
    if !in_one_page(capacity_bytes, address, target.len()) {
        return Err(Refusal::BadLength);
    }
    program_bytes(image, address as usize, target, keep, reply == 0);
    if reply != 0 {
        return Err(Refusal::Device(reply));
    }
    Ok(())
}

// A sector erased to 0xff. `reply` is the device's: 0 succeeds; another is its fault, refused 6, and nothing is altered.
pub fn erase_sector_4k(
    capacity_bytes: u32,
    image: &mut [u8],
    address: u32,
    reply: u8,
) -> Result<(), Refusal>
    ensures value { told result ≡ erase_told capacity_bytes image.old address reply }
    ensures lent { image.new ≡ after_erase capacity_bytes image.old address reply }
{
    checked_image(capacity_bytes, image.len())?;
    if !is_sector(capacity_bytes, address) {
        return Err(Refusal::BadLength);
    }
    if reply != 0 {
        return Err(Refusal::Device(reply));
    }
    let at = address as usize;
    image[at..at + SECTOR_LEN].fill(0xff);
    Ok(())
}
