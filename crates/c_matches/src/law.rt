ghost use Rattle.c_matches.specs.Histories.{PeersAgree, ServersAgree, WorldsFollow};

/// A law of peers: whatever calls are made, one to which only entries of some columns are delivered
/// holds the agreed world of the frames that it ticked, and these are ready by the columns. The call
/// does nothing.
#[tactic(auto, using(crate::proofs::HistoryLemmas::peers_agree))]
pub fn peers_hold_the_agreed_world()
    ensures { PeersAgree }
{}

/// A law of servers: whatever calls are made, one holds the agreed world of its columns of the frames
/// that it ticked, and its marks are the hashes of the agreed worlds after them. The call does
/// nothing.
#[tactic(auto, using(crate::proofs::HistoryLemmas::servers_agree))]
pub fn servers_hold_the_agreed_world()
    ensures { ServersAgree }
{}

/// A law of worlds: one that is stepped by the bytes of a server's frames, whatever calls the server
/// took, is in the server's world, and after each frame its hash is the server's mark. The call does
/// nothing.
#[tactic(auto, using(crate::proofs::AlongLemmas::worlds_follow))]
pub fn worlds_follow_the_server()
    ensures { WorldsFollow }
{}
