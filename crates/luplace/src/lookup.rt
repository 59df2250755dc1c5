//! Numbers and rows by place, and 0 or an empty row past the end.

ghost use Rattle.std.specs.Prelude.{◌≡◌, slice_index};
ghost use Rattle.luflow.specs.Rank.{row};
ghost use Rattle.luworld.specs.Needs.{is_in};

use lubase::Row;

pub fn row_at(rows: &[Row<u8>], place: usize) -> &[u8]
    ensures { result.now ≡ row rows.now place }
{
    match rows.get(place) {
        Some(row) => row.as_slice(),
        None => &[],
    }
}

pub fn first_of(sites: &[u8]) -> u8
    ensures { result ≡ slice_index sites.now 0 }
{
    match sites.get(0) {
        Some(site) => *site,
        None => 0,
    }
}

pub fn is_in(site: u8, sites: &[u8]) -> bool
    ensures { result ≡ is_in site sites.now }
{
    sites.iter().any(|s| *s == site)
}
