// The calls of request M-111 for C and Rust: named states of a listing, in a lent store. A name is 8 bytes.
ghost use Rattle.std.specs.Prelude.{◌≡◌, length};
ghost use Rattle.answers.specs.Answers.{in_numbers, numbers_of, WritesTold};
ghost use Rattle.states.specs.Answers.{plain};
ghost use Rattle.states.specs.Calls.{save_reply, after_save, delete_reply, after_delete, restore_reply};

use answers::Told;

// Saves a tape under a name, as `save` does.
pub fn puchkewa_save(store: &mut [u8], name: &[u8; 8], tape: &[u8]) -> Told
    ensures result_value { numbers_of result ≡ in_numbers (plain (save_reply store.old name.now tape.now)) }
    ensures store_after { store.new ≡ after_save (save_reply store.old name.now tape.now) store.old name.now tape.now }
{
    Told::from(states::save(store, name, tape))
}

// Comes back to the state of a name, as `restore` does.
pub fn puchkewa_restore(store: &[u8], name: &[u8; 8], out: &mut [u8]) -> Told
    ensures { WritesTold (restore_reply store.now name.now (length out.old)) out.old out.new (numbers_of result) }
{
    Told::from(states::restore(store, name, out))
}

// Deletes the state of a name, as `delete` does.
pub fn puchkewa_delete(store: &mut [u8], name: &[u8; 8]) -> Told
    ensures result_value { numbers_of result ≡ in_numbers (plain (delete_reply store.old name.now)) }
    ensures store_after { store.new ≡ after_delete (delete_reply store.old name.now) store.old }
{
    Told::from(states::delete(store, name))
}
