//! The labels of up to 64 sites, kept as bytes.

ghost use Rattle.std.specs.Prelude.{◌≡◌, ℕ, ◌<◌, length, slice_index};
ghost use Rattle.forests.specs.Labels.{relabel};

/// The labels with `stays` in place of `gone`: two components made one. It goes through all 64 places,
/// so it need not know how many sites there are.
pub fn merged(mut labels: [u8; 64], gone: u8, stays: u8) -> [u8; 64]
    ensures len { length result ≡ 64 }
    ensures relabels { (u : ℕ) → u < 64 → slice_index result u ≡ relabel gone stays (slice_index labels u) }
{
    for label in labels.iter_mut() {
        if *label == gone {
            *label = stays;
        }
    }
    labels
}
