// 01, module 5: the wash, by the momentum of the air through the propeller discs.
#![tactic(auto)]

ghost use Rattle.std.specs.Prelude.{◌≡◌};
ghost use Rattle.tailsitter_model.specs.Slipstream as Slipstream;

// The five results of module 5, all 0 without a wash.
#[derive(Clone, Copy)]
pub struct Wash {
    // Added to the free stream's pressure on the surfaces, in Pa; below 0 it takes from that.
    pub pressure_pa: f32,
    // The same for the aileron.
    pub roll_pressure_pa: f32,
    // Pitch torque on the wing over S·c, above 0 nose up.
    pub pitch_moment_pa: f32,
    // The same for what comes on top beyond the stall.
    pub stall_pitch_moment_pa: f32,
    // In the wash scale, what V is in Q/V, in m/s.
    pub damping_mps: f32,
}

// Places 42 to 48 of an airframe.
#[derive(Clone, Copy)]
pub struct PropWash {
    // All propellers' discs together.
    pub disc_area_m2: f32,
    // How much of the added pressure acts on the surfaces; `roll_fraction`: on the aileron.
    pub surface_fraction: f32,
    pub roll_fraction: f32,
    // Share of the rate terms in the wash.
    pub damping_fraction: f32,
    // How strongly moving tail first takes the wash away.
    pub sink_loss: f32,
    // Pitch moments for each Pa of the wash on the surfaces, in any flow and beyond the stall.
    pub pitch_moment: f32,
    pub stall_pitch_moment: f32,
}

impl PropWash {
    // The wash of `thrust_n` at the forward airspeed `axial_mps`, u: below 0 the aeroplane moves tail first.
    pub fn wash(self, thrust_n: f32, axial_mps: f32, density_kgpm3: f32) -> Wash
        ensures { result ≡ Slipstream.wash_of self thrust_n axial_mps density_kgpm3 }
    {
        let added_pa = self.added_pa(thrust_n, axial_mps, density_kgpm3);
        let flow_mps = libm::sqrtf(2.0 * float::at_least_zero(added_pa) / density_kgpm3);
        let pressure_pa = self.surface_fraction * added_pa;
        let pushing_pa = float::at_least_zero(pressure_pa);
        Wash {
            pressure_pa,
            roll_pressure_pa: self.roll_fraction * added_pa,
            pitch_moment_pa: self.pitch_moment * pushing_pa,
            stall_pitch_moment_pa: self.stall_pitch_moment * pushing_pa,
            damping_mps: self.damping_fraction * flow_mps,
        }
    }

    // `added` of module 5, in Pa: the disc's pressure, less what moving tail first costs.
    pub fn added_pa(self, thrust_n: f32, axial_mps: f32, density_kgpm3: f32) -> f32
        ensures { result ≡ Slipstream.added_pa self thrust_n axial_mps density_kgpm3 }
    {
        let disc_pa = thrust_n / self.disc_area_m2;
        if axial_mps < 0.0 {
            let jet_mps = libm::sqrtf(2.0 * disc_pa / density_kgpm3);
            return disc_pa - self.sink_loss * density_kgpm3 * jet_mps * -axial_mps;
        }
        disc_pa
    }
}

// No wash: all zeros.
pub fn no_wash() -> Wash
    ensures { result ≡ Slipstream.no_wash }
{
    Wash {
        pressure_pa: 0.0,
        roll_pressure_pa: 0.0,
        pitch_moment_pa: 0.0,
        stall_pitch_moment_pa: 0.0,
        damping_mps: 0.0,
    }
}
