//! The product's surroundings as the operating system gives them: terminal, TCP, files, threads and the clock, as adapters of the
//! traits of `dxc_outside`. They tell nothing of what they hold, and a call fails only where its count rose.
#![tactic(auto)]

mod caller;
mod changes;
mod copied;
mod dialer;
mod door_notes;
mod entrance;
mod error_lines;
mod file_copy;
mod file_lines;
mod hall;
mod held;
mod host_clock;
mod host_disk;
mod host_gate;
mod host_opener;
mod keepalive;
mod last_sync;
mod leaving;
mod lines_files;
mod outbox;
mod patient;
mod peer_link;
mod peer_watch;
mod refusal;
mod shown;
mod staged_file;
mod tcp_door;
mod tcp_link;
mod term_link;
mod thread_spawner;
mod told;
mod utc;

pub use copied::Copied;
pub use door_notes::DoorNotes;
pub use file_lines::FileLines;
pub use host_clock::HostClock;
pub use host_disk::HostDisk;
pub use host_gate::HostGate;
pub use host_opener::HostOpener;
pub use peer_link::PeerLink;
pub use refusal::Refusal;
pub use tcp_door::TcpDoor;
pub use tcp_link::TcpLink;
pub use term_link::TermLink;
pub use thread_spawner::ThreadSpawner;
pub use told::Utc;
pub use utc::moment_of;
