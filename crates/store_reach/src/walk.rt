ghost use Rattle.std.specs.Prelude.{◌≡◌};
ghost use Rattle.blob_entries.specs.Endings.{is_granted_status};
ghost use Rattle.store_reach.specs.Reach.{all_pieces, entry_pieces, item_piece, numbers, step_piece, steps_pieces, view_piece, views_pieces};
ghost use Rattle.store_reach.specs.Sets.{as_set};
ghost use Rattle.store_reach.specs.Windows.{taken_all, GoesOn};

use crate::window::Window;
use blob_entries::status::{is_done, is_pending};
use blob_entries::{Entry, Step};
use blob_items::View;
use blob_registry::Registry;
use blob_words::{PieceNo, Status};
use item_shares::{Item, Shares};

// The piece whose bytes an item stands for.
fn item_piece(item: &Item) -> Option<PieceNo>
    ensures { result ≡ item_piece item.now }
{
    match item {
        Item::Memory { piece, .. } => Some(*piece),
        Item::Paged { piece, .. } => Some(*piece),
        Item::Reserved { piece, .. } => Some(*piece),
        Item::File { .. } => None,
        Item::Range { .. } => None,
    }
}

// The piece that a view has a byte of.
fn view_piece(shares: &Shares, view: &View) -> Option<PieceNo>
    ensures { result ≡ view_piece shares.now view.now }
{
    item_piece(shares.get(view.slot)?)
}

// The piece that a step names itself.
fn step_piece(shares: &Shares, granted: bool, step: &Step) -> Option<PieceNo>
    ensures { result ≡ step_piece shares.now granted step.now }
{
    match step {
        Step::Own(piece, _) => { if granted { Some(*piece) } else { None } }
        Step::Fixed(view) => view_piece(shares, view),
        Step::Source(_, _, _) => None,
    }
}

fn is_granted(status: Status) -> bool
    ensures { result ≡ is_granted_status status }
{
    !matches!(status, Status::PendingQuota)
}

fn take_views(shares: &Shares, views: &[View], window: &mut Window)
    ensures { window.new ≡ taken_all window.old (views_pieces shares.now views.now) }
{
    for view in views {
        window.take_if(view_piece(shares, view));
    }
}

fn take_steps(shares: &Shares, granted: bool, steps: &[Step], window: &mut Window)
    ensures { window.new ≡ taken_all window.old (steps_pieces shares.now granted steps.now) }
{
    for step in steps {
        window.take_if(step_piece(shares, granted, step));
    }
}

// The pieces of an entry come.
fn take_entry(shares: &Shares, entry: &Entry, window: &mut Window)
    ensures { window.new ≡ taken_all window.old (entry_pieces shares.now entry.now) }
{
    if is_done(entry.status) {
        take_views(shares, entry.views.as_slice(), window);
        return;
    }
    if is_pending(entry.status) {
        let granted = is_granted(entry.status);
        take_steps(shares, granted, entry.recipe.as_slice(), window);
    }
}

fn take_all(registry: &Registry, shares: &Shares, window: &mut Window)
    ensures { window.new ≡ taken_all window.old (all_pieces shares.now registry.now.entries) }
{
    for number in 0..registry.registered() {
        if let Some(entry) = registry.entry_under(number) {
            take_entry(shares, entry, window);
        }
    }
}

/// The pieces reached, as far as a window from this number on has them.
pub fn window_from(registry: &Registry, shares: &Shares, start: u32) -> Window
    ensures { GoesOn (as_set (numbers (all_pieces shares.now registry.now.entries))) start result }
{
    let mut window = Window::new(start);
    take_all(registry, shares, &mut window);
    window
}
