// An outcome, reported for a message.
ghost use Rattle.std.specs.Prelude.{◌≡◌, length};
ghost use Rattle.forms.specs.Time.{time_length};
ghost use Rattle.records.specs.Layout.{part_size};
ghost use Rattle.account.specs.Outcome.{told, reported};

// Whether a waiting message has the id; if so it is finished.
pub fn report(part: &mut [u8], stamp: &[u8], id: u32, state: u8, error: u8) -> bool
    requires { (length part.old ≡ part_size) × (length stamp.now ≡ time_length) }
    ensures { told result part.new ≡ reported stamp.now id state error part.old }
{
    let Some(k) = store::search::find_id(part, id) else {
        return false;
    };
    if !store::places::is_waiting_at(part, k) {
        return false;
    }
    changes::finish(part, k, state, error, stamp);
    true
}
