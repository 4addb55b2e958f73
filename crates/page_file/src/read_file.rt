//! One file of a site, read as bytes, as a value, as a listing or as a page.

ghost use Rattle.std.specs.Prelude.{◌≡◌, ◌≤◌, ◌+◌, ◌⊎◌, Some, Option, IsTrue, IfOk, IfErr, OnOk, length};
ghost use Rattle.page_engine.specs.Pages.{IsLawfulPage};
ghost use Rattle.page_file.specs.Index.{IsIndexOf};
ghost use Rattle.page_file.specs.Listings.{IsLawfulListing};
ghost use Rattle.page_file.specs.Rows.{Fault};
ghost use Rattle.page_file.specs.SiteFiles.{files_limit, file_limit, bytes_at, size_at, IsFileOf, IsListingFile, IsPageFile, listing_fault, page_fault, IsFileFault, IsReadCause};
ghost use Rattle.wd_json.specs.declared.value.Json.{Json as AnyJson};

use crate::listing::{Entry, Listing};
use crate::page::read_page;
use crate::page_fault::PageFault;
use crate::places::Places;
use crate::read_listing::read_listing;
use crate::site_fault::SiteFault;
use crate::why::Why;
use page_engine::PageDef;
use std::alloc::Global;
use wd_http::{FileFault, Files};
use wd_json::{Json, JsonFault, Memory, WdBytes, WdText, read};

/// The most bytes of a file.
const FILE_LIMIT: u64 = 8_388_608;

/// The most bytes of all files of a site together.
const FILES_LIMIT: u64 = 33_554_432;

// What is wrong with the file, with its name, unless there is no memory for it.
fn bad(alloc: Global, name: &WdText, row: u32, why: Why) -> SiteFault
    ensures { (result ≡ SiteFault.Bad name.now row why) ⊎ (result ≡ SiteFault.Memory) }
{
    match name.copy(alloc) {
        Ok(name) => SiteFault::Bad { name, row, why },
        Err(Memory) => SiteFault::Memory,
    }
}

// The bytes of the file, which is read once. `total` counts the bytes that were read. The memory for a
// fault's name is taken before the read, so that a read that failed is told.
fn read_bytes<F: Files>(
    alloc: Global,
    files: &mut F,
    name: &WdText,
    total: &mut u64,
) -> Result<WdBytes, SiteFault>
    requires { total.old ≤ files_limit }
    ensures told { IfOk result (λ bytes. IsTrue F.tells → bytes_at (F.files files.old) name.now ≡ Some bytes) }
    ensures fits { IfOk result (λ bytes. length bytes ≤ file_limit) }
    ensures size { IfOk result (λ bytes. total.new ≡ total.old + length bytes) }
    ensures within { OnOk result (total.new ≤ files_limit) }
    ensures fault { IfErr result (λ fault. IsTrue F.tells → (wrong : AnyJson → Option Fault)
        → IsFileFault (F.files files.old) name.now total.old wrong fault) }
    ensures made { OnOk result (F.made files.new ≡ F.made files.old + 1) }
    ensures kept { OnOk result (F.faults files.new ≡ F.faults files.old) }
    ensures cause { IfErr result (IsReadCause (F.faults files.old) (F.faults files.new)) }
    ensures same { IsTrue F.tells → F.files files.new ≡ F.files files.old }
{
    let limit = FILE_LIMIT.min(FILES_LIMIT - *total);
    let at_hand = name.copy(alloc)?;
    match files.read(name.as_str(), limit) {
        Ok(bytes) => {
            *total += bytes.len() as u64;
            Ok(bytes)
        }
        Err(FileFault::Failed) => Err(SiteFault::Read(at_hand)),
        Err(FileFault::TooLong) => Err(SiteFault::TooLong(at_hand)),
        Err(FileFault::Memory) => Err(SiteFault::Memory),
    }
}

// The value of the file, which is read once.
fn read_value<F: Files>(
    alloc: Global,
    files: &mut F,
    name: &WdText,
    total: &mut u64,
) -> Result<Json, SiteFault>
    requires { total.old ≤ files_limit }
    ensures file { IfOk result (λ value. IsTrue F.tells → IsFileOf (F.files files.old) name.now value) }
    ensures size { OnOk result (IsTrue F.tells → total.new ≡ total.old + size_at (F.files files.old) name.now) }
    ensures within { OnOk result (total.new ≤ files_limit) }
    ensures fault { IfErr result (λ fault. IsTrue F.tells → (wrong : AnyJson → Option Fault)
        → IsFileFault (F.files files.old) name.now total.old wrong fault) }
    ensures made { OnOk result (F.made files.new ≡ F.made files.old + 1) }
    ensures kept { OnOk result (F.faults files.new ≡ F.faults files.old) }
    ensures cause { IfErr result (IsReadCause (F.faults files.old) (F.faults files.new)) }
    ensures same { IsTrue F.tells → F.files files.new ≡ F.files files.old }
{
    let bytes = read_bytes(alloc, files, name, total)?;
    match read(alloc, bytes.as_slice()) {
        Ok(value) => Ok(value),
        Err(JsonFault::NotJson) => Err(bad(alloc, name, 0, Why::Json)),
        Err(JsonFault::NotWhole) => Err(bad(alloc, name, 0, Why::Json)),
        Err(JsonFault::Memory) => Err(SiteFault::Memory),
    }
}

/// The listing that the file spells, and the places of its pages by address.
pub fn read_listing_file<F: Files>(
    alloc: Global,
    files: &mut F,
    name: &WdText,
    total: &mut u64,
) -> Result<(Listing, Places), SiteFault>
    requires { total.old ≤ files_limit }
    ensures listing { IfOk result (λ p. IsTrue F.tells → IsListingFile (F.files files.old) name.now p.0) }
    ensures lawful { IfOk result (λ p. IsLawfulListing p.0) }
    ensures index { IfOk result (λ p. IsIndexOf p.0.entries p.1) }
    ensures size { OnOk result (IsTrue F.tells → total.new ≡ total.old + size_at (F.files files.old) name.now) }
    ensures within { OnOk result (total.new ≤ files_limit) }
    ensures fault { IfErr result (λ fault. IsTrue F.tells → IsFileFault (F.files files.old) name.now total.old listing_fault fault) }
    ensures made { OnOk result (F.made files.new ≡ F.made files.old + 1) }
    ensures kept { OnOk result (F.faults files.new ≡ F.faults files.old) }
    ensures cause { IfErr result (IsReadCause (F.faults files.old) (F.faults files.new)) }
    ensures same { IsTrue F.tells → F.files files.new ≡ F.files files.old }
{
    let value = read_value(alloc, files, name, total)?;
    match read_listing(alloc, &value) {
        Ok(listing) => Ok(listing),
        Err(PageFault::Bad { row, why }) => Err(bad(alloc, name, row, why)),
        Err(PageFault::Memory) => Err(SiteFault::Memory),
    }
}

/// The page that the entry's file spells.
pub fn read_page_file<F: Files>(
    alloc: Global,
    files: &mut F,
    entry: &Entry,
    total: &mut u64,
) -> Result<PageDef, SiteFault>
    requires { total.old ≤ files_limit }
    ensures page { IfOk result (λ page. IsTrue F.tells → IsPageFile (F.files files.old) entry.now page) }
    ensures lawful { IfOk result IsLawfulPage }
    ensures address { IfOk result (λ page. page.address ≡ entry.now.address) }
    ensures size { OnOk result (IsTrue F.tells → total.new ≡ total.old + size_at (F.files files.old) entry.now.file) }
    ensures within { OnOk result (total.new ≤ files_limit) }
    ensures fault { IfErr result (λ fault. IsTrue F.tells → IsFileFault (F.files files.old) entry.now.file total.old (page_fault entry.now) fault) }
    ensures made { OnOk result (F.made files.new ≡ F.made files.old + 1) }
    ensures kept { OnOk result (F.faults files.new ≡ F.faults files.old) }
    ensures cause { IfErr result (IsReadCause (F.faults files.old) (F.faults files.new)) }
    ensures same { IsTrue F.tells → F.files files.new ≡ F.files files.old }
{
    let value = read_value(alloc, files, &entry.file, total)?;
    match read_page(alloc, &value, &entry.address) {
        Ok(page) => Ok(page),
        Err(PageFault::Bad { row, why }) => Err(bad(alloc, &entry.file, row, why)),
        Err(PageFault::Memory) => Err(SiteFault::Memory),
    }
}
