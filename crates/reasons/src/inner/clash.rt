// The alternatives of a clash, written.
ghost use Rattle.std.specs.Prelude.{◌≡◌, ◌∷◌, ◌<◌, length};
ghost use Rattle.store.specs.Layout.{blank};
ghost use Rattle.groups.specs.Layout.{config_count};
ghost use Rattle.grouping.specs.Alike.{alike_at};
ghost use Rattle.grouping.specs.Leads.{FirstAlike};
ghost use Rattle.grouping.specs.Led.{Lent};
ghost use Rattle.grouping.specs.declared.inner.traits.Alike.TheVariants.{Place};
ghost use Rattle.outputs.specs.Members.{alts_at};
ghost use Rattle.outputs.specs.Outputs.{alts_length, padded};

use grouping::inner::lead::lead_all;
use grouping::inner::traits::Alike;
use outputs::inner::subsets::write_members;

// Writes the alternatives of the subset whose first config stands at a place, and before them their count.
pub fn write_clash(set: &[u32], scratch: &mut [u32], output: &mut [u32], place: usize)
    requires { Lent set.now scratch.old × (output.old ≡ blank alts_length) × (place < config_count set.now)
        × FirstAlike (alike_at set.now Place) place place }
    ensures { (output.new ≡ padded alts_length (length (alts_at set.now place) ∷ alts_at set.now place))
        × Lent set.now scratch.new }
{
    let _ = lead_all(set, scratch, Alike::Place);
    let count = write_members(set, scratch, output, 1, place);
    output[0] = count as u32;
}
