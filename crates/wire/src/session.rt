// A session is the list of all messages published in it. The code keeps no such list: `specs/Sessions.antt` says
// where its messages stand in the stream and which segments are true to it.
ghost use Rattle.std.specs.Prelude.{ℕ, List};
ghost use Rattle.wire.specs.Sessions.{PlacesRunOn, TrueMessages, TrueParts};

// Proves the laws of every session; it does nothing.
pub fn session_laws()
    ensures places { (σ : List (List ℕ)) → PlacesRunOn σ }
    ensures messages { (σ : List (List ℕ)) → TrueMessages σ }
    ensures parts { (σ : List (List ℕ)) → TrueParts σ }
{}
