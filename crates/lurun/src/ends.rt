//! The ends of a site's links, by the numbers of the links.

ghost use Rattle.std.specs.Prelude.{◌≡◌, ℕ, IfSome, Some, slice_get};
ghost use Rattle.std.specs.List.Sorted.{IsStrictlyIncreasing};
ghost use Rattle.lulink.specs.Views.{SenderView, ReceiverView};
ghost use Rattle.lurun.specs.Ends.{IsSenderAt, IsReceiverAt, sent_links, taken_links};

use lulink::{LinkNo, Rx, Tx};

/// The place of the end of a link, among ends in order of their links.
pub fn sender_place(txs: &Vec<Tx>, link: LinkNo) -> Option<usize>
    ensures at { IfSome result (IsSenderAt txs.now.items link) }
    ensures found { IsStrictlyIncreasing (sent_links txs.now.items) → (k : ℕ) (t : SenderView)
        → slice_get txs.now.items k ≡ Some t → t.link ≡ link → result ≡ Some k }
{
    let mut low = 0;
    let mut high = txs.len();
    while low < high {
        let middle = low + (high - low) / 2;
        let here = txs[middle].link();
        if here == link {
            return Some(middle);
        }
        if here < link {
            low = middle + 1;
        } else {
            high = middle;
        }
    }
    None
}

/// The place of the end of a link, among ends in order of their links.
pub fn receiver_place(rxs: &Vec<Rx>, link: LinkNo) -> Option<usize>
    ensures at { IfSome result (IsReceiverAt rxs.now.items link) }
    ensures found { IsStrictlyIncreasing (taken_links rxs.now.items) → (k : ℕ) (t : ReceiverView)
        → slice_get rxs.now.items k ≡ Some t → t.link ≡ link → result ≡ Some k }
{
    let mut low = 0;
    let mut high = rxs.len();
    while low < high {
        let middle = low + (high - low) / 2;
        let here = rxs[middle].link();
        if here == link {
            return Some(middle);
        }
        if here < link {
            low = middle + 1;
        } else {
            high = middle;
        }
    }
    None
}
