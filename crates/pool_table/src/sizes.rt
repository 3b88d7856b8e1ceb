//! Sizes that statements name, in bytes.
ghost use Rattle.std.specs.Prelude.{◌≡◌, ◌*◌, ◌≤◌, unwrap_or, option_map};
ghost use Rattle.rm_base.specs.declared.limits.TheConstants.{MEMORY_MOST};
ghost use Rattle.rm_rules.specs.Definitions.{bytes_of};

use rm_base::limits::PERCENT_MOST;
use rm_base::statement::Size;

fn bytes_of(whole: u64, size: Size) -> u64
    requires { whole ≤ MEMORY_MOST }
    ensures { result ≡ bytes_of whole size }
{
    match size {
        Size::Bytes(bytes) => bytes,
        Size::Percent(percent) => u64::from(percent) * whole / PERCENT_MOST,
    }
}

/// A named size in bytes, or the one that was there.
pub fn size_or(whole: u64, named: Option<Size>, had: u64) -> u64
    requires { whole ≤ MEMORY_MOST }
    ensures { result ≡ unwrap_or (option_map (bytes_of whole) named) had }
{
    match named {
        None => had,
        Some(size) => bytes_of(whole, size),
    }
}

/// A named limit in bytes, or the one that was there.
pub fn limit_or(whole: u64, named: Option<Option<Size>>, had: Option<u64>) -> Option<u64>
    requires { whole ≤ MEMORY_MOST }
    ensures { result ≡ unwrap_or (option_map (option_map (bytes_of whole)) named) had }
{
    match named {
        None => had,
        Some(None) => None,
        Some(Some(size)) => Some(bytes_of(whole, size)),
    }
}
