//! The plan of a session.

use crate::turn::Turn;

/// A disk: how many blocks it has, and the name of the file with its contents.
#[derive(Drop)]
pub struct DiskPlan {
    blocks: u32,
    contents: Option<String>,
}

/// A guest: the size of its RAM, a bound on its steps, the names of its files, and its disk, where it has one.
#[derive(Drop)]
pub struct GuestPlan {
    ram: u32,
    steps: u32,
    image: String,
    script: Option<String>,
    disk: Option<DiskPlan>,
}

/// A board, the guests that share it, and the turns that come before all rounds.
#[derive(Drop)]
pub struct SessionPlan {
    board: u32,
    slice: u32,
    guests: Vec<GuestPlan>,
    order: Vec<Turn>,
}

impl DiskPlan {
    ghost use Rattle.std.specs.Prelude.{◌≡◌, option_map, string_bytes};
    ghost use Rattle.mb_script.specs.Answers.{bytes_said, disk_said};

    pub fn new(blocks: u32, contents: Option<String>) -> DiskPlan
        ensures blocks { (disk_said result).blocks ≡ blocks }
        ensures contents { (disk_said result).contents ≡ option_map string_bytes contents }
    {
        DiskPlan { blocks, contents }
    }

    /// How many blocks of 512 bytes; of a session that was read, 1 to 32,768.
    pub fn blocks(&self) -> u32
        ensures { result ≡ (disk_said self.now).blocks }
    {
        self.blocks
    }

    /// The name of the file with its contents, if it has any.
    pub fn contents(&self) -> Option<&str>
        ensures { option_map bytes_said result ≡ (disk_said self.now).contents }
    {
        match &self.contents {
            None => None,
            Some(name) => Some(name.as_str()),
        }
    }
}

impl GuestPlan {
    ghost use Rattle.std.specs.Prelude.{◌≡◌, option_map, string_bytes};
    ghost use Rattle.mb_script.specs.Answers.{bytes_said, disk_said, guest_said};

    /// `ram` is in KiB.
    pub fn new(
        ram: u32,
        steps: u32,
        image: String,
        script: Option<String>,
        disk: Option<DiskPlan>,
    ) -> GuestPlan
        ensures ram { (guest_said result).ram ≡ ram }
        ensures steps { (guest_said result).steps ≡ steps }
        ensures image { (guest_said result).image ≡ string_bytes image }
        ensures script { (guest_said result).script ≡ option_map string_bytes script }
        ensures disk { (guest_said result).disk ≡ option_map disk_said disk }
    {
        GuestPlan {
            ram,
            steps,
            image,
            script,
            disk,
        }
    }

    /// The size of its RAM in KiB; of a session that was read, 64 to 16,384, a multiple of 64.
    pub fn ram(&self) -> u32
        ensures { result ≡ (guest_said self.now).ram }
    {
        self.ram
    }

    /// How many steps it takes at most.
    pub fn steps(&self) -> u32
        ensures { result ≡ (guest_said self.now).steps }
    {
        self.steps
    }

    /// The name of the image's file.
    pub fn image(&self) -> &str
        ensures { result.now ≡ (guest_said self.now).image }
    {
        self.image.as_str()
    }

    /// The name of the script's file, if it has a script.
    pub fn script(&self) -> Option<&str>
        ensures { option_map bytes_said result ≡ (guest_said self.now).script }
    {
        match &self.script {
            None => None,
            Some(name) => Some(name.as_str()),
        }
    }

    /// Its disk, if it has one.
    pub fn disk(&self) -> Option<&DiskPlan>
        ensures { option_map (λ disk. disk_said disk.now) result ≡ (guest_said self.now).disk }
    {
        self.disk.as_ref()
    }

    /// Gives it a disk.
    pub(crate) fn set_disk(&mut self, disk: DiskPlan)
        ensures { guest_said self.new ≡ record (guest_said self.old) { disk = Some (disk_said disk) } }
    {
        self.disk = Some(disk);
    }
}

impl SessionPlan {
    ghost use Rattle.std.specs.Prelude.{◌≡◌, map};
    ghost use Rattle.mb_script.specs.Answers.{guest_said, plan_said};

    /// `board` is in KiB, `slice` in steps.
    pub fn new(board: u32, slice: u32, guests: Vec<GuestPlan>, order: Vec<Turn>) -> SessionPlan
        ensures board { (plan_said result).board ≡ board }
        ensures slice { (plan_said result).slice ≡ slice }
        ensures guests { (plan_said result).guests ≡ map guest_said guests.items }
        ensures order { (plan_said result).order ≡ order.items }
    {
        SessionPlan {
            board,
            slice,
            guests,
            order,
        }
    }

    /// The size of the board's memory in KiB; of a session that was read, 128 to 65,536, a multiple of 64.
    pub fn board(&self) -> u32
        ensures { result ≡ (plan_said self.now).board }
    {
        self.board
    }

    /// How many steps a guest takes in its turn; of a session that was read, at least 1.
    pub fn slice(&self) -> u32
        ensures { result ≡ (plan_said self.now).slice }
    {
        self.slice
    }

    /// The guests in their order; of a session that was read, one to sixteen.
    pub fn guests(&self) -> &[GuestPlan]
        ensures { map guest_said result.now ≡ (plan_said self.now).guests }
    {
        &self.guests
    }

    /// The turns that come before all rounds, in their order; of a session that was read, each of one of its guests.
    pub fn order(&self) -> &[Turn]
        ensures { result.now ≡ (plan_said self.now).order }
    {
        &self.order
    }

    /// The turns that come before all rounds, in their order.
    pub fn into_order(self) -> Vec<Turn>
        ensures { result.items ≡ (plan_said self).order }
    {
        self.order
    }
}
