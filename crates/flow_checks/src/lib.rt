//! Tests on public calls, of what neither a run of the program nor a script of an archive shows: functions on messages
//! and sums that no program calls; a folder of the system as a disk, and what comes of it where syncs and writes fail;
//! how often a disk in memory lies; the plain archive; a rolled file, and a sealed segment read message by message, all
//! at once and by its flows; the headline, archives in memory that are stopped and opened again; and archives that
//! threads share: readers' places, that two workers of a scan run beside each other, and that the thread that rolls lets
//! others in. Archives themselves are tested by the scripts of flow_replay.
#![tactic(auto)]

#[cfg(test)]
mod archives;
#[cfg(test)]
mod calls;
#[cfg(test)]
mod folders;
#[cfg(test)]
mod lies;
#[cfg(test)]
mod meeting;
#[cfg(test)]
mod messages;
#[cfg(test)]
mod places;
#[cfg(test)]
mod plain;
#[cfg(test)]
mod plan;
#[cfg(test)]
mod rolled;
#[cfg(test)]
mod segments;
#[cfg(test)]
mod sharing;
#[cfg(test)]
mod steps;
#[cfg(test)]
mod stops;
#[cfg(test)]
mod threads;
#[cfg(test)]
mod values;
